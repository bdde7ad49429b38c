// What a text that says a library gives.
ghost use Rattle.std.specs.Prelude.{ℕ, List};
ghost use Rattle.cell_library.specs.Laws.{IsLibrary};
ghost use Rattle.cell_library.specs.Library.{LibraryView, limits_of};
ghost use Rattle.cell_library.specs.Says.{SaysLibrary, SaysLimits};

/// A text that says a library says one that keeps the ranges, the kinds and the laws of libraries.
pub fn each_library()
    ensures { (text : List ℕ) (library : LibraryView) → SaysLibrary text library → IsLibrary library }
{}

/// A text that says a library gives the rules the library's numbers.
pub fn limits_are_said()
    ensures { (text : List ℕ) (library : LibraryView) → SaysLibrary text library
        → SaysLimits text (limits_of library) }
{}
