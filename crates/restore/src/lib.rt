// A version is restored from a sound store.
#![tactic(auto)]

ghost use Rattle.std.specs.Prelude.{◌≡◌, [], ℕ, ◌+◌, ◌-◌, ◌<◌, length, get_or, drop};
ghost use Rattle.model.specs.Table.{shape_of, state_in, storage_in, versions_in};
ghost use Rattle.model.specs.Calls.{till_of, first_of, restore_from, restore_of};
ghost use Rattle.laws.specs.Stores.{Sound};
ghost use Rattle.numbers.specs.Measures.{measures_of};
ghost use Rattle.tills.specs.Answers.{HeadOf};
ghost use Rattle.restore.specs.Answers.{Lent, restore_result};

use numbers::Measures;
use refusals::Refusal;
use tills::Head;

// An image that has been written to the output: its bytes, and its longest chain.
#[derive(Clone, Copy, Debug, PartialEq, Eq)]
pub struct Image {
    pub length: u32,
    pub hops: u32,
}

// The first of h versions in slots for images of b blocks.
fn restore_slots(
    pool: &[u8],
    words: &[u32],
    slots: &[u32],
    b: usize,
    h: usize,
    output: &mut [u8],
    m: Measures,
) -> Result<Image, Refusal>
    requires { Lent (measures_of m) b h pool.now words.now slots.now }
    ensures { restore_result result output.new ≡ restore_from m.bytes (storage_in (measures_of m) pool.now words.now) (first_of 0 [] (versions_in m.bytes b h slots.now)) output.old }
{
    let length = slots[1];
    if output.len() < length as usize {
        return Err(Refusal::ShortOutput);
    }
    let hops = restore_trace::restore_image(pool, words, slots, b, h, output, m);
    Ok(Image { length, hops })
}

// The version at place j of those held, the oldest first.
fn restore_held(
    pool: &[u8],
    table: &[u32],
    till: u32,
    head: Head,
    j: usize,
    output: &mut [u8],
    m: Measures,
) -> Result<Image, Refusal>
    requires { Sound pool.now table.now × (till < get_or table.now 0 0) × HeadOf pool.now table.now till head × (j < head.held) × (measures_of m ≡ (shape_of table.now).measures) }
    ensures { restore_result result output.new ≡ restore_from (shape_of table.now).measures.block_bytes (state_in (shape_of table.now) pool.now table.now).storage (first_of 0 [] (drop j (till_of (state_in (shape_of table.now) pool.now table.now) till).versions)) output.old }
{
    let records = layout::records_at(table);
    let blocks = table[2] as usize;
    let width = 3 + blocks;
    let held = head.held as usize;
    let slots = head.at + 4;
    let slot = slots + j * width;
    let end = slots + held * width;
    restore_slots(
        pool,
        &table[records..],
        &table[slot..end],
        blocks,
        held - j,
        output,
        m,
    )
}

#[tactic(auto, using(laws::proofs::Stores::header))]
pub fn restore_version(
    pool: &[u8],
    table: &[u32],
    till: u32,
    version: u32,
    output: &mut [u8],
) -> Result<Image, Refusal>
    requires { Sound pool.now table.now }
    ensures { restore_result result output.new ≡ restore_of pool.now table.now till version output.old }
{
    if table[0] <= till {
        return Err(Refusal::NoSuchTill);
    }
    let head = tills::till_head(pool, table, till);
    let place = tills::look_up(pool, table, till, head, version)?;
    let m = layout::measures_in(table);
    restore_held(pool, table, till, head, place, output, m)
}
