//! Laws of reports.

ghost use Rattle.ctr_report.specs.Laws.{OneReport, AnyOrder, OneMorePair};

/// Laws of the rows of a report and of the number of pairs, of all branches: a proof and no work.
pub fn report_laws()
    ensures one { OneReport }
    ensures any_order { AnyOrder }
    ensures pairs { OneMorePair }
{}
