// The second message, on a sound store: its image is put together and backed up.
#![tactic(auto)]

ghost use Rattle.std.specs.Prelude.{◌≡◌, true, ℕ, ◌≤◌, length, take};
ghost use Rattle.model.specs.Table.{shape_of, state_in};
ghost use Rattle.laws.specs.Stores.{Sound};
ghost use Rattle.backup.specs.Call.{backup_result};
ghost use Rattle.chain.specs.Limit.{within};
ghost use Rattle.refusals.specs.Refusals.{refusal_of};
ghost use Rattle.sha1_definition.specs.Sha1.{sha1};
ghost use Rattle.sent.specs.Sent.{sent_fits, assembled, backup_sent_of};
ghost use Rattle.sent.specs.Found.{Brings};

use backup_steps::Limit;
use refusals::Refusal;

// The image of a message that fits goes to the front of the output.
fn assemble_in(
    pool: &[u8],
    table: &[u32],
    bytes: u32,
    fingerprints: &[u8],
    marks: &[u8],
    segments: &[u8],
    out: &mut [u8],
) -> Result<(), Refusal>
    requires { Sound pool.now table.now × (sent_fits (shape_of table.now) bytes fingerprints.now marks.now segments.now ≡ true) × (73728 ≤ length out.old) }
    ensures { Brings (assembled sha1 (shape_of table.now).measures (state_in (shape_of table.now) pool.now table.now).storage bytes fingerprints.now marks.now segments.now) (refusal_of result) (take bytes out.new) }
{
    let m = layout::measures_in(table);
    let from = layout::records_at(table);
    sent_assemble::assemble(
        pool,
        &table[from..],
        bytes as usize,
        fingerprints,
        marks,
        segments,
        out,
        m,
    )
}

// With room for the image and for what its last segment has past it.
fn back_up_through(
    pool: &mut [u8],
    table: &mut [u32],
    till: u32,
    bytes: u32,
    fingerprints: &[u8],
    marks: &[u8],
    segments: &[u8],
    out: &mut [u8],
    limit: Limit,
) -> Result<u32, Refusal>
    requires { Sound pool.old table.old × (73728 ≤ length out.old) × (limit.others ≤ 524288) }
    ensures { backup_result result pool.new table.new ≡ within limit.others limit.most pool.old table.old (backup_sent_of pool.old table.old till bytes fingerprints.now marks.now segments.now) }
{
    // Kept: after a `?` a refusal has no name: an edit that answered another one by `map_err` added a step, and was refused for that.
    if let Err(early) = sent_accept::sent_refusal(
        pool,
        table,
        till,
        bytes,
        fingerprints,
        marks,
        segments,
    ) {
        return Err(early);
    }
    if let Err(late) = assemble_in(pool, table, bytes, fingerprints, marks, segments, out) {
        return Err(late);
    }
    let end = bytes as usize;
    backup::back_up(pool, table, till, &out[..end], limit)
}

pub fn back_up_sent(
    pool: &mut [u8],
    table: &mut [u32],
    till: u32,
    bytes: u32,
    fingerprints: &[u8],
    marks: &[u8],
    segments: &[u8],
    limit: Limit,
) -> Result<u32, Refusal>
    requires { Sound pool.old table.old × (limit.others ≤ 524288) }
    ensures { backup_result result pool.new table.new ≡ within limit.others limit.most pool.old table.old (backup_sent_of pool.old table.old till bytes fingerprints.now marks.now segments.now) }
{
    let mut out = [0u8; 73728];
    back_up_through(
        pool,
        table,
        till,
        bytes,
        fingerprints,
        marks,
        segments,
        &mut out,
        limit,
    )
}
