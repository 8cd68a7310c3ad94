// The bill: every till's part of the price of the occupied cells.
#![tactic(auto)]

ghost use Rattle.std.specs.Prelude.{◌≡◌, ℕ, ◌+◌, ◌*◌, ◌-◌, ◌≤◌, ◌<◌, length, get_or, take};
ghost use Rattle.laws.specs.Stores.{Sound};
ghost use Rattle.audit_tills.specs.Sound.{pointer_words, slots_pointers, till_pointers};
ghost use Rattle.bill.specs.Bill.{bill_of};
ghost use Rattle.bill_sums.specs.Answers.{bill_result};
ghost use Rattle.bill_sums.specs.Marks.{with_bit, mark_word, mark_words, none_direct, TillRows, mark_tills, part_of, share_out, shared, share_all, billed_tills};

use refusals::Refusal;

// The tills are marked in their order, so that a mark below a till's bit is without it.
fn with_bit(mark: u16, bit: u16) -> u16
    requires { bit ≤ 32768 }
    ensures { result ≡ with_bit bit mark }
{
    if mark < bit { mark + bit } else { mark }
}

// A direct pointer puts the bit into its position's mark: the upper half of its word is 0x100, the lower the position's number.
fn mark_word(marks: &mut [u16], w: u32, bit: u16)
    requires { (length marks.old ≡ 65536) × (bit ≤ 32768) }
    ensures { marks.new ≡ mark_word bit w marks.old }
{
    let at = (w % 0x1_0000) as usize;
    if w / 0x1_0000 == 0x100 {
        marks[at] = with_bit(marks[at], bit);
    }
}

// Whether no word is a direct pointer. No exit from the loop, so that the compiler takes many words at a time.
fn none_direct(words: &[u32]) -> bool
    ensures { result ≡ none_direct words.now }
{
    let mut none = true;
    for &w in words {
        none &= w / 0x1_0000 != 0x100;
    }
    none
}

fn mark_each(words: &[u32], bit: u16, marks: &mut [u16])
    requires { (length marks.old ≡ 65536) × (bit ≤ 32768) }
    ensures { marks.new ≡ mark_words bit words.now marks.old }
{
    for &w in words {
        mark_word(marks, w, bit);
    }
}

// A group of words. Most have no direct pointer, and leave the marks as they are.
fn mark_group(words: &[u32], bit: u16, marks: &mut [u16])
    requires { (length marks.old ≡ 65536) × (bit ≤ 32768) }
    ensures { marks.new ≡ mark_words bit words.now marks.old }
{
    if !none_direct(words) {
        mark_each(words, bit, marks);
    }
}

// The words in groups of 32, and what is left.
fn mark_words(words: &[u32], bit: u16, marks: &mut [u16])
    requires { (length marks.old ≡ 65536) × (bit ≤ 32768) }
    ensures { marks.new ≡ mark_words bit words.now marks.old }
{
    let groups = words.chunks_exact(32);
    let rest = groups.remainder();
    for group in groups {
        mark_group(group, bit, marks);
    }
    mark_group(rest, bit, marks);
}

// The pointers of one slot, for images of so many blocks of so many bytes.
fn mark_slot(slot: &[u32], bytes: usize, blocks: usize, bit: u16, marks: &mut [u16])
    requires { (0 < bytes) × (bytes ≤ 512) × (blocks ≤ 1024) × (length slot.now ≡ 3 + blocks) × (length marks.old ≡ 65536) × (bit ≤ 32768) }
    ensures { marks.new ≡ mark_words bit (pointer_words bytes slot.now) marks.old }
{
    let end = 3 + audit_pointers::pointer_count(slot, blocks, bytes);
    mark_words(&slot[3..end], bit, marks);
}

// Those of the slots in use.
fn mark_slots(slots: &[u32], bytes: usize, blocks: usize, count: usize, bit: u16, marks: &mut [u16])
    requires { (0 < bytes) × (bytes ≤ 512) × (blocks ≤ 1024) × (count ≤ 64) × (count * (3 + blocks) ≤ length slots.now) × (length marks.old ≡ 65536) × (bit ≤ 32768) }
    ensures { marks.new ≡ mark_words bit (slots_pointers bytes blocks count slots.now) marks.old }
{
    let width = 3 + blocks;
    for i in 0..count {
        let at = i * width;
        mark_slot(&slots[at..at + width], bytes, blocks, bit, marks);
    }
}

fn mark_till(till: &[u32], bytes: usize, blocks: usize, bit: u16, marks: &mut [u16])
    requires { (0 < bytes) × (bytes ≤ 512) × (blocks ≤ 1024) × (get_or till.now 1 0 ≤ 64) × (4 + get_or till.now 1 0 * (3 + blocks) ≤ length till.now) × (length marks.old ≡ 65536) × (bit ≤ 32768) }
    ensures { marks.new ≡ mark_words bit (till_pointers bytes blocks till.now) marks.old }
{
    let count = till[1] as usize;
    mark_slots(&till[4..], bytes, blocks, count, bit, marks);
}

// Those of all tills, of so many words each.
fn mark_tills(
    tills: &[u32],
    width: usize,
    count: usize,
    bytes: usize,
    blocks: usize,
    marks: &mut [u16],
)
    requires { (0 < bytes) × (bytes ≤ 512) × (blocks ≤ 1024) × (count ≤ 16) × TillRows width count blocks tills.now × (length marks.old ≡ 65536) }
    ensures { marks.new ≡ mark_tills bytes blocks width tills.now count marks.old }
{
    for t in 0..count {
        let at = t * width;
        mark_till(&tills[at..at + width], bytes, blocks, 1u16 << t, marks);
    }
}

// The part of the next till: one more than the quotient while tenths are left.
fn part(quotient: u32, left: u32) -> u32
    requires { quotient ≤ 10000 }
    ensures { (result ≡ part_of quotient 1 left) × (result ≤ 10001) }
{
    if left == 0 { quotient } else { quotient + 1 }
}

// The tills of a mark get their parts, from the lowest on.
fn share_out(mark: u32, quotient: u32, rest: u32, sums: &mut [u32])
    requires { (quotient ≤ 10000) × (mark < 65536) × (length sums.old ≡ 16) × ((t : ℕ) → get_or sums.old t 0 ≤ 1000000000) }
    ensures { sums.new ≡ share_out quotient mark rest sums.old }
{
    let mut m = mark;
    let mut left = rest;
    while m != 0 {
        let p = u32::trailing_zeros(m);
        let t = p as usize;
        sums[t] += part(quotient, left);
        left = left.saturating_sub(1);
        m -= 1u32 << p;
    }
}

// The price of a cell is divided among the tills of its mark. One till alone has all of it, without a division.
fn share(mark: u16, price: u32, sums: &mut [u32])
    requires { (0 < mark) × (price ≤ 10000) × (length sums.old ≡ 16) × ((t : ℕ) → get_or sums.old t 0 ≤ 1000000000) }
    ensures { sums.new ≡ shared price mark sums.old }
{
    let tills = u32::from(mark);
    let n = u32::count_ones(tills);
    if n == 1 {
        share_out(tills, price, 0, sums);
    } else {
        share_out(tills, price / n, price % n, sums);
    }
}

// The prices of some marks. A position without a mark has no cell.
fn share_all(marks: &[u16], price: u32, sums: &mut [u32])
    requires { (price ≤ 10000) × (length marks.now ≤ 65536) × (length sums.old ≡ 16) × ((t : ℕ) → get_or sums.old t 0 ≡ 0) }
    ensures { sums.new ≡ share_all price marks.now sums.old }
{
    for &mark in marks {
        if mark != 0 {
            share(mark, price, sums);
        }
    }
}

// The bill of all tills. Only the records that there are have marks.
fn bill_tills(
    tills: &[u32],
    width: usize,
    count: usize,
    bytes: usize,
    blocks: usize,
    records: usize,
    price: u32,
) -> [u32; 16]
    requires { (0 < bytes) × (bytes ≤ 512) × (blocks ≤ 1024) × (count ≤ 16) × TillRows width count blocks tills.now × (records ≤ 4096) × (price ≤ 10000) }
    ensures { bill_result (Ok result) ≡ billed_tills bytes blocks width tills.now count records price }
{
    let mut marks = [0u16; 65536];
    let mut sums = [0u32; 16];
    mark_tills(tills, width, count, bytes, blocks, &mut marks);
    share_all(&marks[..records * 16], price, &mut sums);
    sums
}

pub fn bill_store(pool: &[u8], table: &[u32], price: u32) -> Result<[u32; 16], Refusal>
    requires { Sound pool.now table.now }
    ensures { bill_result result ≡ bill_of pool.now table.now price }
{
    if 10000 < price {
        return Err(Refusal::HighPrice);
    }
    let m = layout::measures_in(table);
    let width = layout::till_words(table);
    let count = table[0] as usize;
    let blocks = table[2] as usize;
    let records = table[3] as usize;
    Ok(bill_tills(
        &table[layout::HEADER_WORDS..],
        width,
        count,
        m.bytes,
        blocks,
        records,
        price,
    ))
}
