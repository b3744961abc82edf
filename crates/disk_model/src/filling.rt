ghost use Rattle.std.specs.Prelude.{◌≡◌, ◌≤◌, ◌<◌, ◌⊎◌, ◌∷◌, [], true, false, length, ℕ, slice_index};
ghost use Rattle.std.specs.List.{list_any};
ghost use Rattle.disk_model.specs.Disk.{is_inside, greatest_end};
ghost use Rattle.disk_model.specs.Notes.{ranges_of};

use crate::note::Note;

/// Puts a byte at each place past the synced length or in a written range.
pub fn fill_unsynced(image: &mut [u8], synced_length: usize, notes: &[Note], fill: u8)
    requires synced { synced_length ≤ length image.old }
    requires ends { greatest_end (ranges_of notes.now) ≤ length image.old }
    ensures filled { (k : ℕ) → k < length image.old →
        (synced_length ≤ k) ⊎ (list_any (is_inside k) (ranges_of notes.now) ≡ true) →
        slice_index image.new k ≡ fill }
    ensures same { (k : ℕ) → k < synced_length →
        list_any (is_inside k) (ranges_of notes.now) ≡ false →
        slice_index image.new k ≡ slice_index image.old k }
{
    let end = image.len();
    fill_range(image, synced_length, end, fill);
    let mut rest = notes;
    while let [note, after @ ..] = rest {
        fill_note(image, *note, fill);
        rest = after;
    }
}

fn fill_note(image: &mut [u8], note: Note, fill: u8)
    requires { greatest_end (ranges_of (note ∷ [])) ≤ length image.old }
    ensures filled { (k : ℕ) → list_any (is_inside k) (ranges_of (note ∷ [])) ≡ true →
        slice_index image.new k ≡ fill }
    ensures same { (k : ℕ) → list_any (is_inside k) (ranges_of (note ∷ [])) ≡ false →
        slice_index image.new k ≡ slice_index image.old k }
{
    match note {
        Note::Wrote { at, len } => fill_range(image, at, at + len, fill),
        Note::Synced => {}
    }
}

fn fill_range(image: &mut [u8], start: usize, end: usize, fill: u8)
    requires order { start ≤ end }
    requires inside { end ≤ length image.old }
    ensures filled { (k : ℕ) → start ≤ k → k < end → slice_index image.new k ≡ fill }
    ensures same { (k : ℕ) → (k < start) ⊎ (end ≤ k) →
        slice_index image.new k ≡ slice_index image.old k }
{
    image[start..end].fill(fill);
}
