// Whether a backup can begin: the refusals that are told before a segment is placed.
#![tactic(auto)]

ghost use Rattle.std.specs.Prelude.{◌≡◌, ℕ, ◌<◌, length, get_or};
ghost use Rattle.refusals.specs.Refusals.{refusal_of};
ghost use Rattle.model.specs.Table.{shape_of, state_in};
ghost use Rattle.laws.specs.Stores.{Sound, HeaderRanges};
ghost use Rattle.backup_accept.specs.Accept.{most_bytes, till_refusal, dated_refusal, AcceptResult};

use numbers::Block;
use refusals::Refusal;

// The longest image's bytes: where the block past its last one would begin.
pub fn most_bytes(table: &[u32]) -> usize
    requires { HeaderRanges table.now }
    ensures { result ≡ most_bytes table.now }
{
    let m = layout::measures_in(table);
    let past = Block(table[2]);
    past.byte(m.bytes)
}

// Whether a till has a slot and a number left.
pub fn till_refusal(pool: &[u8], table: &[u32], till: u32) -> Result<(), Refusal>
    requires { Sound pool.now table.now × (till < get_or table.now 0 0) }
    ensures { refusal_of result ≡ till_refusal (shape_of table.now) (state_in (shape_of table.now) pool.now table.now) till }
{
    let head = tills::till_head(pool, table, till);
    if table[1] <= head.held {
        return Err(Refusal::TillFull);
    }
    if head.last == 65535 {
        return Err(Refusal::NumbersSpent);
    }
    Ok(())
}

// The same, and then whether a day is not before that of the till's newest version.
fn dated_refusal(pool: &[u8], table: &[u32], till: u32, day: u32) -> Result<(), Refusal>
    requires { Sound pool.now table.now × (till < get_or table.now 0 0) }
    ensures { refusal_of result ≡ dated_refusal (shape_of table.now) (state_in (shape_of table.now) pool.now table.now) till day }
{
    till_refusal(pool, table, till)?;
    if day < tills::newest_day(pool, table, till) {
        return Err(Refusal::EarlierDay);
    }
    Ok(())
}

// The refusals of a backup before a segment is placed: of the till, of the image's length, then those above.
pub fn backup_refusal(
    pool: &[u8],
    table: &[u32],
    till: u32,
    day: u32,
    image: &[u8],
) -> Result<(), Refusal>
    requires { Sound pool.now table.now }
    ensures { AcceptResult pool.now table.now till day image.now (refusal_of result) }
{
    if table[0] <= till {
        return Err(Refusal::NoSuchTill);
    }
    let bytes = image.len();
    if bytes == 0 || bytes > most_bytes(table) {
        return Err(Refusal::ImageLength);
    }
    dated_refusal(pool, table, till, day)
}
