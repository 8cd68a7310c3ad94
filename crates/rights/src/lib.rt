// Keys for staff: what a user may do with a till, asked and set. User 0 is the owner.
#![tactic(auto)]

ghost use Rattle.std.specs.Prelude.{◌≡◌, ◌-◌, ◌≤◌, ◌<◌, get_or, set};
ghost use Rattle.refusals.specs.Refusals.{refusal_of};
ghost use Rattle.model.specs.State.{staff};
ghost use Rattle.model.specs.Sound.{store_of};
ghost use Rattle.model.specs.Table.{rights_bits, rights_word, rights_in};
ghost use Rattle.model.specs.Calls.{no_rights};
ghost use Rattle.model.specs.Rights.{has, refusal_for, not_owner, set_rights_of};
ghost use Rattle.laws.specs.Stores.{Sound, HeaderRanges};
ghost use Rattle.rights.specs.Answers.{right_of, place_of, rights_given, RightsAt, set_refusal, rights_answered};

use refusals::Refusal;

// How many users there are beside the owner: 1 to 7.
const STAFF: u32 = 7;

// What a call needs.
#[derive(Clone, Copy, Debug, PartialEq, Eq)]
pub enum Right {
    List,
    BackUp,
    Restore,
    Retire,
}

// What a user may do.
#[derive(Clone, Copy, Debug, PartialEq, Eq)]
pub struct Rights {
    pub list: bool,
    pub back_up: bool,
    pub restore: bool,
    pub retire: bool,
}

// The place of a right among a user's four bits.
fn place_of(right: Right) -> u32
    ensures { result ≡ place_of (right_of right) }
{
    match right {
        Right::List => 0,
        Right::BackUp => 1,
        Right::Restore => 2,
        Right::Retire => 3,
    }
}

// Whether a till's word of rights gives one to a user.
fn allows(word: u32, user: u32, right: Right) -> bool
    requires { (0 < user) × (user ≤ staff) }
    ensures { result ≡ has (right_of right) (get_or (rights_in staff word) (user - 1) no_rights) }
{
    let bit = 4 * (user - 1) + place_of(right);
    (word >> bit) % 2 == 1
}

// The refusal of a user who may not make a call that is the owner's only.
pub fn owner_refusal(user: u32) -> Result<(), Refusal>
    ensures { refusal_of result ≡ not_owner user }
{
    match user {
        0 => Ok(()),
        1..=STAFF => Err(Refusal::NoRight),
        _ => Err(Refusal::UnknownUser),
    }
}

// Where a till's word of rights is.
fn rights_at(pool: &[u8], table: &[u32], till: u32) -> usize
    requires { Sound pool.now table.now × (till < get_or table.now 0 0) }
    ensures { RightsAt table.now till result }
{
    let head = tills::till_head(pool, table, till);
    head.at + 2
}

// The refusal of a user who may not make a call on a till. There is none where there is no such till.
pub fn refusal(
    pool: &[u8],
    table: &[u32],
    user: u32,
    till: u32,
    right: Right,
) -> Result<(), Refusal>
    requires { Sound pool.now table.now }
    ensures { refusal_of result ≡ refusal_for (store_of pool.now table.now) user till (right_of right) }
{
    if table[0] <= till {
        return Ok(());
    }
    match user {
        1..=STAFF => {
            let at = rights_at(pool, table, till);
            if allows(table[at], user, right) {
                Ok(())
            } else {
                Err(Refusal::NoRight)
            }
        }
        _ => owner_refusal(user),
    }
}

// The four bits of the rights that a call gives, the first right's the lowest.
fn bits_of(rights: Rights) -> u32
    ensures { result ≡ rights_bits (rights_given rights) }
{
    let list = u32::from(rights.list);
    let back_up = u32::from(rights.back_up);
    let restore = u32::from(rights.restore);
    let retire = u32::from(rights.retire);
    list + 2 * (back_up + 2 * (restore + 2 * retire))
}

// A till's word of rights with others for one user. The other users keep theirs.
fn word_with(word: u32, subject: u32, rights: Rights) -> u32
    requires { (0 < subject) × (subject ≤ staff) × (word < 268435456) }
    ensures { result ≡ rights_word (set (rights_in staff word) (subject - 1) (rights_given rights)) }
{
    let place = 4 * (subject - 1);
    let old = (word >> place) % 16;
    let unit = 1u32 << place;
    word - old * unit + bits_of(rights) * unit
}

// The refusal of a change: no such till, an unknown user on either side, or a user who is not the owner.
fn set_refusal(table: &[u32], user: u32, subject: u32, till: u32) -> Result<(), Refusal>
    requires { HeaderRanges table.now }
    ensures { refusal_of result ≡ set_refusal table.now user subject till }
{
    if table[0] <= till {
        return Err(Refusal::NoSuchTill);
    }
    if subject == 0 || STAFF < subject {
        return Err(Refusal::UnknownUser);
    }
    owner_refusal(user)
}

// Sets the rights of a user, the subject, on a till. A refused call changes nothing.
pub fn set_rights(
    pool: &[u8],
    table: &mut [u32],
    user: u32,
    subject: u32,
    till: u32,
    rights: Rights,
) -> Result<(), Refusal>
    requires { Sound pool.now table.old }
    ensures { rights_answered (refusal_of result) table.new ≡ set_rights_of pool.now table.old user subject till (rights_given rights) }
{
    set_refusal(table, user, subject, till)?;
    let at = rights_at(pool, table, till);
    table[at] = word_with(table[at], subject, rights);
    Ok(())
}
