// Whether a message is refused before a segment of it is looked at.
#![tactic(auto)]

ghost use Rattle.std.specs.Prelude.{◌≡◌, ℕ, ◌≤◌, leb, length};
ghost use Rattle.lists.specs.Lists.{every, total};
ghost use Rattle.model.specs.Table.{shape_of, state_in};
ghost use Rattle.laws.specs.Stores.{Sound, HeaderRanges};
ghost use Rattle.refusals.specs.Refusals.{refusal_of};
ghost use Rattle.sent.specs.Sent.{sent_fits};
ghost use Rattle.sent_accept.specs.Refusals.{offer_refusal, sent_refusal};

use refusals::Refusal;

// The first message: whether there is the till, and whether the lists fit an image.
pub fn offer_refusal(
    table: &[u32],
    till: u32,
    fingerprints: &[u8],
    marks: &[u8],
) -> Result<(), Refusal>
    requires { HeaderRanges table.now }
    ensures { refusal_of result ≡ offer_refusal (shape_of table.now) till fingerprints.now marks.now }
{
    if table[0] <= till {
        return Err(Refusal::NoSuchTill);
    }
    let m = layout::measures_in(table);
    let n = marks.len();
    if n == 0 {
        return Err(Refusal::ImageLength);
    }
    if numbers::parts_for(m.blocks, table[2] as usize) < n {
        return Err(Refusal::ImageLength);
    }
    if fingerprints.len() != 20 * n {
        return Err(Refusal::ImageLength);
    }
    Ok(())
}

// Whether each mark is 0 or 1.
fn marks_valid(marks: &[u8]) -> bool
    ensures { result ≡ every (λ i. leb i 1) marks.now }
{
    marks.iter().all(|&mark| mark <= 1)
}

// How many segments follow.
fn marked(marks: &[u8]) -> usize
    requires { total (λ i. i) marks.now ≤ 256 }
    ensures { result ≡ total (λ i. i) marks.now }
{
    marks.iter().map(|&mark| usize::from(mark)).sum()
}

// Whether the lists fit the length.
// Kept: the new form is no plainer (six tests joined by && in one expression, with the counts read between them).
fn lists_fit(table: &[u32], length: u32, fingerprints: &[u8], marks: &[u8], segments: &[u8]) -> bool
    requires { HeaderRanges table.now }
    ensures { result ≡ sent_fits (shape_of table.now) length fingerprints.now marks.now segments.now }
{
    if length == 0 {
        return false;
    }
    let bytes = length as usize;
    if bytes > backup_accept::most_bytes(table) {
        return false;
    }
    let m = layout::measures_in(table);
    let n = marks.len();
    if n != m.segments(bytes) {
        return false;
    }
    if !marks_valid(marks) {
        return false;
    }
    if fingerprints.len() != 20 * n {
        return false;
    }
    segments.len() == marked(marks) * m.segment_bytes()
}

// The second message: whether there is the till, whether the lists fit the length, and whether the till has a slot and a number left.
pub fn sent_refusal(
    pool: &[u8],
    table: &[u32],
    till: u32,
    length: u32,
    fingerprints: &[u8],
    marks: &[u8],
    segments: &[u8],
) -> Result<(), Refusal>
    requires { Sound pool.now table.now }
    ensures { refusal_of result ≡ sent_refusal (shape_of table.now) (state_in (shape_of table.now) pool.now table.now) till length fingerprints.now marks.now segments.now }
{
    if table[0] <= till {
        return Err(Refusal::NoSuchTill);
    }
    if !lists_fit(table, length, fingerprints, marks, segments) {
        return Err(Refusal::ImageLength);
    }
    backup_accept::till_refusal(pool, table, till)
}
