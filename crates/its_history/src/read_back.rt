//! Laws of reports that are read back.
ghost use Rattle.its_history.specs.ReadBack.{ReadReportsPrint, PrintedReportsAreRead};

/// What is read prints as it was.
pub fn read_reports_print()
    ensures { ReadReportsPrint }
{}

/// What is printed is read as it is.
pub fn printed_reports_are_read()
    ensures { PrintedReportsAreRead }
{}
