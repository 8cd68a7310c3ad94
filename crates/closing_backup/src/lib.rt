// §7's call, on a sound store: the images are backed up one after the other, with no second check between them. The user's right is asked for each, and
// the limit of a chain.
#![tactic(auto)]

ghost use Rattle.std.specs.Prelude.{◌≡◌, true, ℕ, ◌≤◌, replicate};
ghost use Rattle.laws.specs.Stores.{Sound};
ghost use Rattle.chain.specs.Limit.{image_within, backup_all_within};
ghost use Rattle.closing.specs.Closing.{images_in, closing_fits};
ghost use Rattle.closing.specs.Singly.{made_each, answer_to};
ghost use Rattle.closing_backup.specs.Answers.{all_answered, closing_result};

use backup_steps::Limit;
use refusals::{Refusal, answered};

// The images' own refusals and versions in their order, 0 past the last image.
#[derive(Clone, Copy, Debug, PartialEq, Eq)]
pub struct Each {
    pub refusals: [u32; 16],
    pub versions: [u32; 16],
}

// Whether the lists fit each other and the bytes.
fn lists_fit(tills: &[u32], lengths: &[u32], images: &[u8]) -> bool
    ensures { result ≡ closing_fits tills.now lengths.now images.now }
{
    if tills.len() > 16 {
        return false;
    }
    if lengths.len() != tills.len() {
        return false;
    }
    lengths::sum_to(lengths, tills.len()) == images.len()
}

// Each image in turn; its answer goes to its place in the lists, which come with zeros.
fn back_up_each(
    pool: &mut [u8],
    table: &mut [u32],
    user: u32,
    tills: &[u32],
    lengths: &[u32],
    images: &[u8],
    refusals: &mut [u32],
    versions: &mut [u32],
    limit: Limit,
)
    requires { Sound pool.old table.old × (closing_fits tills.now lengths.now images.now ≡ true) × (refusals.old ≡ replicate 16 0) × (versions.old ≡ replicate 16 0) × (limit.others ≤ 524288) }
    ensures { all_answered refusals.new versions.new pool.new table.new ≡ answer_to (made_each (image_within limit.others limit.most user) pool.old table.old (images_in tills.now lengths.now images.now)) }
{
    let mut from = 0;
    for i in 0..tills.len() {
        let end = from + lengths[i] as usize;
        let r = user_calls::backup(pool, table, user, tills[i], &images[from..end], limit);
        refusals[i] = answered(&r);
        versions[i] = r.unwrap_or(0);
        from = end;
    }
}

pub fn back_up_all(
    pool: &mut [u8],
    table: &mut [u32],
    user: u32,
    tills: &[u32],
    lengths: &[u32],
    images: &[u8],
    limit: Limit,
) -> Result<Each, Refusal>
    requires { Sound pool.old table.old × (limit.others ≤ 524288) }
    ensures { closing_result result pool.new table.new ≡ backup_all_within limit.others limit.most pool.old table.old user tills.now lengths.now images.now }
{
    if !lists_fit(tills, lengths, images) {
        return Err(Refusal::ImageLength);
    }
    let mut refusals = [0u32; 16];
    let mut versions = [0u32; 16];
    back_up_each(
        pool,
        table,
        user,
        tills,
        lengths,
        images,
        &mut refusals,
        &mut versions,
        limit,
    );
    Ok(Each { refusals, versions })
}
