// A till's slots: pointers over those of a version, and a version that goes from between its neighbours.
#![tactic(auto)]

ghost use Rattle.std.specs.Prelude.{◌≡◌, List, ◌∷◌, ◌++◌, map, ℕ, ◌+◌, ◌-◌, ◌≤◌, ◌<◌, length, get_or, set};
ghost use Rattle.model.specs.State.{Pointer, Version, Rights, with_pointers};
ghost use Rattle.model.specs.Table.{pointer_word, till_to_words};
ghost use Rattle.model.specs.Calls.{newest_pointers, with_newest_pointers};
ghost use Rattle.slots.specs.Slots.{HasSlot};

// Pointer words over those of the version at place j of those held, the oldest first, for images of b blocks.
fn put_pointers(till: &mut [u32], b: usize, j: usize, pointers: &[u32])
    requires { HasSlot b j till.old × (length pointers.now ≤ b) }
    ensures { ((v last : ℕ) (rights : List Rights) (older : List Version) (u : Version) (newer : List Version) (ps : List Pointer) → length older ≡ j → length (older ++ (u ∷ newer)) ≤ v → till.old ≡ till_to_words v b (record { last = last; rights = rights; versions = older ++ (u ∷ newer) }) → pointers.now ≡ map pointer_word ps → length ps ≡ length u.pointers → till.new ≡ till_to_words v b (record { last = last; rights = rights; versions = older ++ (with_pointers u ps ∷ newer) })) × (get_or till.new 1 0 ≡ get_or till.old 1 0) }
{
    let start = 4 + j * (3 + b) + 3;
    words::copy_in(pointers, &mut till[start..start + b]);
}

// The version at place j goes, and the later slots move down.
fn drop_slot(till: &mut [u32], b: usize, j: usize)
    requires { HasSlot b j till.old }
    ensures { (v last : ℕ) (rights : List Rights) (older : List Version) (u : Version) (newer : List Version) → length older ≡ j → length (older ++ (u ∷ newer)) ≤ v → till.old ≡ till_to_words v b (record { last = last; rights = rights; versions = older ++ (u ∷ newer) }) → till.new ≡ till_to_words v b (record { last = last; rights = rights; versions = older ++ newer }) }
{
    till[1] -= 1;
    let start = 4 + j * (3 + b);
    words::shift(&mut till[start..], 3 + b);
}

// The version at place j goes, and its older neighbour has other pointers; with none there are no pointers to put.
pub fn close_up(till: &mut [u32], b: usize, j: usize, pointers: &[u32])
    requires { HasSlot b j till.old × (length pointers.now ≤ b) }
    ensures { (v last : ℕ) (rights : List Rights) (older : List Version) (u : Version) (newer : List Version) (ps : List Pointer) → length older ≡ j → length (older ++ (u ∷ newer)) ≤ v → till.old ≡ till_to_words v b (record { last = last; rights = rights; versions = older ++ (u ∷ newer) }) → pointers.now ≡ map pointer_word ps → length ps ≡ length (newest_pointers older) → till.new ≡ till_to_words v b (record { last = last; rights = rights; versions = with_newest_pointers older ps ++ newer }) }
{
    if j > 0 {
        put_pointers(till, b, j - 1, pointers);
    }
    drop_slot(till, b, j);
}
