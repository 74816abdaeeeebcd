use std::marker::Brand;

// The properties and the old report, which are the same for a question and for all that it encodes.
pub(crate) trait Naming {
    ghost use Rattle.std.specs.Prelude.{List};
    ghost use Rattle.gp_property.specs.PropertyForm.{PropertyForm};
    ghost use Rattle.gp_report.specs.ReportForm.{ReportForm};

    ghost properties: { List PropertyForm };

    ghost old: { ReportForm };
}

impl Naming for Brand {
    ghost use Rattle.std.specs.Prelude.{[]};

    ghost properties = { [] };

    ghost old = { record { format = 1; budget = 1; windows = [] } };
}
