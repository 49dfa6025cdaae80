ghost use Rattle.be_report.specs.Laws.{WordsSayTheirEntry, NoOtherWords, TextTellsHistory};
ghost use Rattle.be_report.specs.Laws.{OnlyItsText, LegalIsPossible, ReportTellsHistory};
ghost use Rattle.be_report.specs.Laws.{BreaksAtALine};

// What holds of reports. Each law is the contract of a function with an empty body.

/// The words of an entry say it, and no other words do: of each kind of entries, with every name
/// and every number that it can have.
pub fn an_entry_has_one_line()
    ensures says { WordsSayTheirEntry }
    ensures alone { NoOtherWords }
{}

/// The text of a history tells it, and a text tells a history only where it begins with just that
/// text and the line `traces`. So no text tells two histories.
pub fn a_history_is_told_by_its_text()
    ensures tells { TextTellsHistory }
    ensures alone { OnlyItsText }
{}

/// The report of a legal history tells it, whatever the numbers in it. So different legal histories
/// have different reports.
pub fn a_report_tells_its_history()
    ensures possible { LegalIsPossible }
    ensures tells { ReportTellsHistory }
{}

/// Where a text tells no history, the number that is told is that of one of its lines, or of the
/// one behind them.
pub fn a_text_that_tells_none_breaks_at_a_line()
    ensures { BreaksAtALine }
{}
