// What a line shows of a name, for every name.
ghost use Rattle.std.specs.Prelude.{ℕ, ◌≡◌, ◌≤◌, List, length, take, false, IsUtf8};
ghost use Rattle.std.specs.List.{list_any};
ghost use Rattle.shown_names.specs.Names.{is_control, beginning, shown_name};

/// No control byte is put in a line, whatever the name: the line stays one.
pub fn lines_stay_one()
    ensures { (name : List ℕ) → list_any is_control (shown_name name) ≡ false }
{}

/// A name of at most 200 bytes without a control byte is put as it is.
pub fn plain_names_stay()
    ensures { (name : List ℕ) → length name ≤ 200 → list_any is_control name ≡ false → shown_name name ≡ name }
{}

/// Of a long name in UTF-8 the beginning has at most 200 bytes, is UTF-8, and no longer beginning of at most 200 bytes
/// is: it cuts no character.
pub fn beginnings_are_the_longest()
    ensures bound { (name : List ℕ) → length (beginning name) ≤ 200 }
    ensures whole { (name : List ℕ) → IsUtf8 name → IsUtf8 (beginning name) }
    ensures longest { (name : List ℕ) (n : ℕ) → IsUtf8 name → n ≤ 200 → IsUtf8 (take n name)
        → length (take n name) ≤ length (beginning name) }
{}
