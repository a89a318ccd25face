ghost use Rattle.string_io.specs.Blocks.{BlocksAreElements};

/// A block asks for its elements' accesses one by one, and placing its reply places theirs.
pub fn blocks_are_elements()
    ensures law { BlocksAreElements }
{}
