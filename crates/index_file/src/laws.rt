//! Laws of index files.
ghost use Rattle.index_file.specs.Laws.{FindsSameByCell, IndexesAreRead, IndexesAreSpelled};

/// What a query finds is the same over rows and over these rows by rising cell.
pub fn finds_same_by_cell()
    ensures { FindsSameByCell }
{}

/// An index is read as a book and rows exactly if it is their spelling in either version, the book is valid, and the rows may
/// stand in it.
pub fn index_laws()
    ensures read { IndexesAreRead }
    ensures spelled { IndexesAreSpelled }
{}
