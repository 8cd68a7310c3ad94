// Whether the header's words and the lengths of the two buffers are in order.
#![tactic(auto)]

ghost use Rattle.std.specs.Prelude.{true, false, ◌≡◌, ℕ, ◌≤◌, length};
ghost use Rattle.lists.specs.Decides.{Decides};
ghost use Rattle.numbers.specs.Measures.{measures_of};
ghost use Rattle.audit_header.specs.Header.{MeasuresCanonical, HeaderSound};

use numbers::Measures;

// Whether the words of the measures are those that a lay out writes: 64, 8 and 20 are not written out.
fn measures_written(table: &[u32], m: Measures) -> bool
    requires { 8 ≤ length table.now }
    ensures { Decides result (MeasuresCanonical table.now (measures_of m)) }
{
    table[5] == m.word(table[5]) && table[6] == m.word(table[6]) && table[7] == m.word(table[7])
}

// Whether header and lengths are those of a store.
pub fn header(pool: &[u8], table: &[u32]) -> bool
    ensures { Decides result (HeaderSound pool.now table.now) }
{
    if table.len() < layout::HEADER_WORDS {
        return false;
    }
    let c = layout::capacities_in(table);
    let m = c.measures;
    layout::in_range(c) && measures_written(table, m) && layout::lengths_fit(pool, table, c)
}
