// The keeper of whole images: told the arguments of each call and whether it was accepted, and nothing out of pool or table.
// Its notes are eleven for each till: the last number given, the number held at each of five places (0 at a free one), the length of the image there.
// After those of three tills come the rights, 1 for one that is given: on each till those of each user to list, to back up, to restore and to retire.
#![tactic(auto)]

ghost use Rattle.std.specs.Prelude.{◌≡◌, ◌+◌, ◌*◌, ◌<◌, ◌≤◌, min, length, slice_index, slice_set};
ghost use Rattle.trial_keeper.specs.Notes.{last_given, number_at, newer_than, place_of, newest_of, oldest_of, length_of, is_held, struck, noted, filed, image_at, with_image, filed_images, wrong_from, most_bytes, missing_number, right_at, user_refusal, owner_refusal, set_refusal, rights_set, backup_refusal, restore_refusal, retire_refusal};
ghost use Rattle.refusals.specs.Refusals.{number_of, refusal_of};

use layout::Capacities;
use numbers::Block;
use refusals::Refusal;
use rights::Rights;

// So many versions at most are kept of a till.
pub const PLACES: u32 = 5;

// An image has a place of so many bytes.
const BYTES: usize = 1280;

// Enough notes and bytes of images for three tills.
pub const NOTES: usize = 129;

pub const IMAGES: usize = 19200;

pub fn note_at(notes: &[u32], at: usize) -> u32
    ensures { result ≡ slice_index notes.now at }
{
    notes.get(at).copied().unwrap_or(0)
}

pub fn put_note(notes: &mut [u32], at: usize, note: u32)
    ensures { notes.new ≡ slice_set notes.old at note }
{
    if at < notes.len() {
        notes[at] = note;
    }
}

fn number_note(till: u32, place: u32) -> usize
    ensures { result ≡ till * 11 + 1 + place }
{
    till as usize * 11 + 1 + place as usize
}

fn length_note(till: u32, place: u32) -> usize
    ensures { result ≡ till * 11 + 6 + place }
{
    till as usize * 11 + 6 + place as usize
}

pub fn last(notes: &[u32], till: u32) -> u32
    ensures { result ≡ last_given notes.now till }
{
    note_at(notes, till as usize * 11)
}

// The number held at a place, 0 if it is free.
pub fn number_at(notes: &[u32], till: u32, place: u32) -> u32
    ensures { result ≡ number_at notes.now till place }
{
    note_at(notes, number_note(till, place))
}

// How many held versions of the till are newer.
pub fn newer(notes: &[u32], till: u32, version: u32) -> u32
    ensures { (result ≡ newer_than notes.now till version) × (result ≤ 5) }
{
    let mut n = 0;
    for place in (0..PLACES).rev() {
        n += u32::from(version < number_at(notes, till, place));
    }
    n
}

fn held(notes: &[u32], till: u32) -> u32
    ensures { result ≡ newer_than notes.now till 0 }
{
    newer(notes, till, 0)
}

pub fn newest(notes: &[u32], till: u32) -> u32
    ensures { result ≡ newest_of notes.now till }
{
    let mut most = 0;
    for place in (0..PLACES).rev() {
        most = number_at(notes, till, place).max(most);
    }
    most
}

// The lesser of two, where 0 is none.
// Kept: a promise that may not change: a free place has the number 0 in the notes, as the contracts have it (least_held).
fn lesser(a: u32, b: u32) -> u32
    ensures { (a ≡ 0 → result ≡ b) × (0 < a → b ≡ 0 → result ≡ a) × (0 < a → 0 < b → a ≤ b → result ≡ a) × (0 < a → 0 < b → b < a → result ≡ b) }
{
    if a == 0 {
        b
    } else if b == 0 {
        a
    } else {
        a.min(b)
    }
}

pub fn oldest(notes: &[u32], till: u32) -> u32
    ensures { result ≡ oldest_of notes.now till }
{
    let mut least = 0;
    for place in (0..PLACES).rev() {
        least = lesser(number_at(notes, till, place), least);
    }
    least
}

// The first place with this number, or 5. The first free place has the number 0.
// Kept: a promise that may not change: wrong_in reads an image at the place past the last where a version is not held.
fn place_of(notes: &[u32], till: u32, number: u32) -> u32
    ensures { (result ≡ place_of notes.now till number) × (result ≤ 5) }
{
    let mut found = PLACES;
    for place in (0..PLACES).rev() {
        if number_at(notes, till, place) == number {
            found = place;
        }
    }
    found
}

// No version has the number 0.
#[tactic(auto, unfolding(crate::specs::Notes::is_held))]
pub fn holds(notes: &[u32], till: u32, version: u32) -> bool
    ensures { result ≡ is_held notes.now till version }
{
    version != 0 && place_of(notes, till, version) < PLACES
}

// 0 for a version not held.
#[tactic(auto, unfolding(crate::specs::Notes::length_of))]
pub fn length(notes: &[u32], till: u32, version: u32) -> u32
    ensures { result ≡ length_of notes.now till version }
{
    if !holds(notes, till, version) {
        return 0;
    }
    note_at(notes, length_note(till, place_of(notes, till, version)))
}

fn short(n: usize) -> u32
    ensures { result ≡ min n 65536 }
{
    n.min(65536) as u32
}

// Where the image of a place starts.
fn image_at(till: u32, place: u32) -> usize
    ensures { result ≡ image_at till place }
{
    (till as usize * 5 + place as usize) * BYTES
}

// An image without room is not kept.
#[tactic(auto, unfolding(crate::specs::Notes::with_image))]
fn copy(images: &mut [u8], at: usize, image: &[u8])
    ensures { images.new ≡ with_image images.old at image.now }
{
    if at <= images.len() && image.len() <= images.len() - at {
        images[at..at + image.len()].copy_from_slice(image);
    }
}

fn note_version(notes: &mut [u32], till: u32, place: u32, version: u32, bytes: usize)
    ensures { notes.new ≡ noted notes.old till place version bytes }
{
    put_note(notes, number_note(till, place), version);
    put_note(notes, length_note(till, place), short(bytes));
}

fn file_at(images: &mut [u8], notes: &mut [u32], till: u32, place: u32, version: u32, image: &[u8])
    ensures { (notes.new ≡ noted notes.old till place version (length image.now)) × (images.new ≡ with_image images.old (image_at till place) image.now) }
{
    note_version(notes, till, place, version, image.len());
    copy(images, image_at(till, place), image);
}

// An image takes the first free place. One without is not kept, and shows as a wrong answer.
#[tactic(auto, unfolding(crate::specs::Notes::filed, crate::specs::Notes::filed_images))]
pub fn file(images: &mut [u8], notes: &mut [u32], till: u32, image: &[u8])
    ensures { (notes.new ≡ filed notes.old till (length image.now)) × (images.new ≡ filed_images images.old notes.old till image.now) }
{
    let version = last(notes, till).wrapping_add(1);
    let place = place_of(notes, till, 0);
    put_note(notes, till as usize * 11, version);
    if place < PLACES {
        file_at(images, notes, till, place, version, image);
    }
}

// The version's place is free again.
pub fn strike(notes: &mut [u32], till: u32, version: u32)
    ensures { notes.new ≡ struck notes.old till version }
{
    if holds(notes, till, version) {
        let at = number_note(till, place_of(notes, till, version));
        put_note(notes, at, 0);
    }
}

// How many bytes of an output are not the image's that starts there, or not as they were marked after it.
#[tactic(auto, unfolding(crate::specs::Notes::wrong_from))]
fn wrong_from(images: &[u8], at: usize, bytes: usize, output: &[u8]) -> usize
    ensures { result ≡ wrong_from images.now at bytes output.now }
{
    if images.len() < at || images.len() - at < bytes {
        return output.len();
    }
    if output.len() < bytes {
        return bytes;
    }
    let end = at + bytes;
    let wrong = trial_compare::wrong_bytes(&images[at..end], &output[0..bytes]);
    wrong.wrapping_add(trial_compare::unmarked(&output[bytes..]))
}

pub fn wrong_in(images: &[u8], notes: &[u32], till: u32, version: u32, output: &[u8]) -> usize
    ensures { result ≡ wrong_from images.now (image_at till (place_of notes.now till version)) (length_of notes.now till version) output.now }
{
    let at = image_at(till, place_of(notes, till, version));
    wrong_from(images, at, length(notes, till, version) as usize, output)
}

// Of a store in range, a block's bytes.
pub fn block_bytes(c: Capacities) -> usize
    ensures { (result ≡ min c.measures.bytes 512) × (result ≤ 512) }
{
    let m = c.measures;
    m.bytes.min(Block::MOST_BYTES)
}

// An image's most bytes.
pub fn image_bytes(c: Capacities) -> usize
    ensures { (result ≡ most_bytes c.blocks c.measures.bytes) × (result ≤ 65536) }
{
    Block(c.blocks).byte(block_bytes(c)).min(65536)
}

// The four rights.
// Kept: a promise that may not change, that of refusal_of, is about any number for a right.
pub const LIST: u32 = 0;

pub const BACK_UP: u32 = 1;

pub const RESTORE: u32 = 2;

pub const RETIRE: u32 = 3;

fn right_note(till: u32, user: u32, right: u32) -> usize
    ensures { result ≡ 33 + (till * 8 + user) * 4 + right }
{
    33 + (till as usize * 8 + user as usize) * 4 + right as usize
}

// The refusal that the page's order gives a user for a call on a till.
pub fn refusal_of(
    c: Capacities,
    notes: &[u32],
    user: u32,
    till: u32,
    right: u32,
) -> Result<(), Refusal>
    ensures { refusal_of result ≡ user_refusal c.tills notes.now user till right }
{
    if c.tills <= till {
        return Err(Refusal::NoSuchTill);
    }
    if 7 < user {
        return Err(Refusal::UnknownUser);
    }
    if user == 0 {
        return Ok(());
    }
    if note_at(notes, right_note(till, user, right)) == 0 {
        return Err(Refusal::NoRight);
    }
    Ok(())
}

// For a call that is the owner's only.
pub fn owner_refusal(user: u32) -> Result<(), Refusal>
    ensures { refusal_of result ≡ owner_refusal user }
{
    if 7 < user {
        return Err(Refusal::UnknownUser);
    }
    if 0 < user {
        return Err(Refusal::NoRight);
    }
    Ok(())
}

// For setting the rights of a user, the subject.
pub fn set_refusal(c: Capacities, user: u32, subject: u32, till: u32) -> Result<(), Refusal>
    ensures { refusal_of result ≡ set_refusal c.tills user subject till }
{
    if c.tills <= till {
        return Err(Refusal::NoSuchTill);
    }
    if subject == 0 || 7 < subject {
        return Err(Refusal::UnknownUser);
    }
    owner_refusal(user)
}

// The user has these rights on the till and no others.
pub fn set_rights(notes: &mut [u32], till: u32, user: u32, rights: Rights)
    ensures { notes.new ≡ rights_set notes.old till user rights.list rights.back_up rights.restore rights.retire }
{
    put_note(notes, right_note(till, user, LIST), u32::from(rights.list));
    put_note(
        notes,
        right_note(till, user, BACK_UP),
        u32::from(rights.back_up),
    );
    put_note(
        notes,
        right_note(till, user, RESTORE),
        u32::from(rights.restore),
    );
    put_note(
        notes,
        right_note(till, user, RETIRE),
        u32::from(rights.retire),
    );
}

// The refusal that the page's order gives a backup, 14 and 16 apart.
pub fn backup_refusal(c: Capacities, notes: &[u32], till: u32, bytes: usize) -> Result<(), Refusal>
    ensures { refusal_of result ≡ backup_refusal c.tills c.versions (most_bytes c.blocks c.measures.bytes) notes.now till bytes }
{
    if c.tills <= till {
        return Err(Refusal::NoSuchTill);
    }
    if bytes == 0 || image_bytes(c) < bytes {
        return Err(Refusal::ImageLength);
    }
    if c.versions <= held(notes, till) {
        return Err(Refusal::TillFull);
    }
    if 65535 <= last(notes, till) {
        return Err(Refusal::NumbersSpent);
    }
    Ok(())
}

// Why a version is not held.
fn missing(notes: &[u32], till: u32, version: u32) -> Refusal
    ensures { number_of result ≡ missing_number (last_given notes.now till) version }
{
    if 0 == version || last(notes, till) < version {
        Refusal::NeverGiven
    } else {
        Refusal::NoLongerHeld
    }
}

pub fn restore_refusal(
    c: Capacities,
    notes: &[u32],
    till: u32,
    version: u32,
    room: usize,
) -> Result<(), Refusal>
    ensures { refusal_of result ≡ restore_refusal c.tills notes.now till version room }
{
    if c.tills <= till {
        return Err(Refusal::NoSuchTill);
    }
    if !holds(notes, till, version) {
        return Err(missing(notes, till, version));
    }
    if room < length(notes, till, version) as usize {
        return Err(Refusal::ShortOutput);
    }
    Ok(())
}

pub fn retire_refusal(c: Capacities, notes: &[u32], till: u32, version: u32) -> Result<(), Refusal>
    ensures { refusal_of result ≡ retire_refusal c.tills notes.now till version }
{
    if c.tills <= till {
        return Err(Refusal::NoSuchTill);
    }
    if !holds(notes, till, version) {
        return Err(missing(notes, till, version));
    }
    Ok(())
}
