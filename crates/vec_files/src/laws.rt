//! What vector files are read as, and how they are spelled.
ghost use Rattle.vec_files.specs.Laws.{BvecsAreRead, BvecsAreSpelled, IvecsAreRead, IvecsAreSpelled};

/// A bvecs file is read as rows exactly where it is their spelling and they are within the limits.
pub fn bvecs_laws()
    ensures read { BvecsAreRead }
    ensures spelled { BvecsAreSpelled }
{}

/// An ivecs file is read as rows exactly where it is their spelling and they are within the limits.
pub fn ivecs_laws()
    ensures read { IvecsAreRead }
    ensures spelled { IvecsAreSpelled }
{}
