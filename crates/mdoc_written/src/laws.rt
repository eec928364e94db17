//! What holds of every value of an element, and of every item.

ghost use Rattle.mdoc_written.specs.Laws.{ElementsRead, ItemsRead};

/// What is written is read as what was meant.
pub fn written_is_read()
    ensures elements { ElementsRead }
    ensures items { ItemsRead }
{}
