//! What holds of every date.

ghost use Rattle.mdoc_dates.specs.Laws.{TextsRead};

/// What is written is read as the second that was meant.
pub fn text_is_read()
    ensures { TextsRead }
{}
