// A till's newest version: its pointers out and back, and a version added behind it.
#![tactic(auto)]

ghost use Rattle.std.specs.Prelude.{◌≡◌, List, map, ◌∷◌, ◌++◌, ℕ, suc, ◌+◌, ◌*◌, ◌-◌, ◌≤◌, ◌<◌, length, get_or, take, drop};
ghost use Rattle.model.specs.State.{Till, Pointer};
ghost use Rattle.model.specs.Table.{till_to_words, pointer_word};
ghost use Rattle.model.specs.Calls.{newest_pointers, till_with};
ghost use Rattle.backup_file.specs.Filing.{newest_at, Room, FewBlocks, VersionsFit, turned_till, added_till, SameHead, HasFreeSlot};

// Where the newest held version's slot begins.
fn newest_at(till: &[u32], b: usize) -> usize
    requires { Room b till.now × (0 < get_or till.now 1 0) }
    ensures { (result ≡ newest_at b till.now) × (result + (3 + b) ≤ length till.now) }
{
    4 + (till[1] as usize - 1) * (3 + b)
}

// The newest held version's pointer words to the front of out; how many.
pub fn newest_pointers(till: &[u32], b: usize, out: &mut [u32], bytes: usize) -> usize
    requires { Room b till.now × FewBlocks bytes b till.now × (b ≤ length out.old) × (0 < bytes) × (bytes ≤ 512) }
    ensures { ((v : ℕ) (t : Till) → VersionsFit bytes v b t → till.now ≡ till_to_words v b t → take result out.new ≡ map pointer_word (newest_pointers t.versions)) × (result ≤ b) }
{
    if till[1] == 0 {
        return 0;
    }
    let at = newest_at(till, b);
    let n = numbers::parts_for(bytes, till[at + 1] as usize);
    let start = at + 3;
    words::copy_in(&till[start..start + n], out);
    n
}

// Pointer words over the newest held version's; nothing where none is held.
pub fn turn_newest(till: &mut [u32], b: usize, pointers: &[u32])
    requires { Room b till.old × (length pointers.now ≤ b) }
    ensures { ((v : ℕ) (t : Till) (ps : List Pointer) → length t.versions ≤ v → till.old ≡ till_to_words v b t → pointers.now ≡ map pointer_word ps → length ps ≡ length (newest_pointers t.versions) → till.new ≡ till_to_words v b (turned_till t ps)) × SameHead till.old till.new }
{
    if till[1] == 0 {
        return;
    }
    let start = newest_at(till, b) + 3;
    words::copy_in(pointers, &mut till[start..start + b]);
}

// A slot's number, length, day and pointers.
fn put_slot(slot: &mut [u32], number: u32, bytes: u32, day: u32, pointers: &[u32])
    requires { 3 + length pointers.now ≤ length slot.old }
    ensures { slot.new ≡ number ∷ bytes ∷ day ∷ (pointers.now ++ drop (length pointers.now) (drop 3 slot.old)) }
{
    slot[..3].copy_from_slice(&[number, bytes, day]);
    words::copy_in(pointers, &mut slot[3..]);
}

// A version at the end, for a till with a slot left.
pub fn add_version(till: &mut [u32], b: usize, bytes: u32, day: u32, pointers: &[u32])
    requires { Room b till.old × HasFreeSlot b till.old × (length pointers.now ≤ b) }
    ensures { (v : ℕ) (t : Till) (ps : List Pointer) → length t.versions < v → till.old ≡ till_to_words v b t → pointers.now ≡ map pointer_word ps → till.new ≡ till_to_words v b (added_till t bytes day ps) }
{
    let last = till[0];
    let held = till[1];
    let start = 4 + held as usize * (3 + b);
    put_slot(
        &mut till[start..start + (3 + b)],
        last + 1,
        bytes,
        day,
        pointers,
    );
    till[0] = last + 1;
    till[1] = held + 1;
}

// The newest version's pointers turned, and a version behind it.
pub fn file_version(
    till: &mut [u32],
    b: usize,
    turned: &[u32],
    bytes: u32,
    day: u32,
    pointers: &[u32],
)
    requires { Room b till.old × HasFreeSlot b till.old × (length turned.now ≤ b) × (length pointers.now ≤ b) }
    ensures { (v : ℕ) (t : Till) (ps qs : List Pointer) → length t.versions < v → till.old ≡ till_to_words v b t → turned.now ≡ map pointer_word ps → length ps ≡ length (newest_pointers t.versions) → pointers.now ≡ map pointer_word qs → till.new ≡ till_to_words v b (till_with t ps bytes day qs) }
{
    turn_newest(till, b, turned);
    add_version(till, b, bytes, day, pointers);
}
