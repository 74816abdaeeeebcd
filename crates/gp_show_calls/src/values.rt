ghost use Rattle.std.specs.Prelude.{◌≡◌, ◌++◌, OnOk};
ghost use Rattle.gp_json.specs.Json.{json_text};
ghost use Rattle.gp_json.specs.Strings.{string_text};
ghost use Rattle.gp_sarif.specs.Results.{result_value};
ghost use Rattle.gp_values.specs.Instances.{answered_value};
ghost use Rattle.gp_view.specs.Answered.{form_of};

use gp_place::{Beside, Places};
use gp_property::Property;
use gp_view::Answered;
use std::alloc::AllocError;

/// As `gp_json::put_string`.
pub fn put_string(text: &mut Vec<u8>, bytes: &[u8]) -> Result<(), AllocError>
    ensures { OnOk result (text.new.items ≡ text.old.items ++ string_text bytes.now) }
{
    gp_json::put_string(text, bytes)
}

/// As `gp_values::put_answered`.
pub fn put_value(
    text: &mut Vec<u8>,
    beside: &Beside,
    answered: &Answered<'_>,
) -> Result<(), AllocError>
    ensures { OnOk result (text.new.items ≡ text.old.items ++ json_text (answered_value beside.now (form_of answered.now))) }
{
    gp_values::put_answered(text, beside, answered)
}

/// As `gp_sarif::put_result`.
pub fn put_result(
    text: &mut Vec<u8>,
    properties: &[Property],
    places: &Places,
    answered: &Answered<'_>,
) -> Result<(), AllocError>
    ensures { OnOk result (text.new.items ≡ text.old.items ++ json_text (result_value properties.now places.now (form_of answered.now))) }
{
    gp_sarif::put_result(text, properties, places, answered)
}
