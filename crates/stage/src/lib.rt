// What a report prints of a stage.
#![tactic(auto)]

ghost use Rattle.std.specs.Prelude.{◌≡◌, ◌++◌};
ghost use Rattle.text.specs.Pages.{HasRoom, Wrote};
ghost use Rattle.stage.specs.Millimetres.{millimetres};
ghost use Rattle.stage.specs.Centimetres.{nearest, centimetres};
ghost use Rattle.stage.specs.Printed.{signed_decimal, stage_text};

use text::Page;

// What a field says: a number in two's complement.
fn millimetres(field: u16) -> i16
    ensures { result ≡ millimetres field }
{
    field.cast_signed()
}

// Whole centimetres of a distance: the nearest; half way between two, down to an even one and up from an odd one.
fn nearest(mm: u16) -> u16
    ensures { result ≡ nearest mm }
{
    let mm = mm as u32;
    let half = 4 + mm / 10 % 2;
    ((mm + half) / 10) as u16
}

// Whole centimetres of a stage: of one below the datum as of one as far above it.
fn centimetres(mm: i16) -> i16
    ensures { result ≡ centimetres mm }
{
    let cm = nearest(mm.unsigned_abs()) as i16;
    if mm.is_negative() { -cm } else { cm }
}

// The bytes of a text and a whole number in decimal: a `-` leads a negative one.
#[inline(always)]
fn put_signed(page: &mut Page, label: &[u8], n: i16)
    requires { HasRoom page.old (label.now ++ signed_decimal n) }
    ensures { Wrote page.old page.new (label.now ++ signed_decimal n) }
{
    let digits = n.unsigned_abs();
    if n.is_negative() {
        page.put_bytes(label);
        page.put_labelled(b"-", digits);
    } else {
        page.put_labelled(label, digits);
    }
}

// The bytes of a text and a stage in whole centimetres.
#[inline(always)]
pub fn put_stage(page: &mut Page, label: &[u8], field: u16)
    requires { HasRoom page.old (label.now ++ stage_text field) }
    ensures { Wrote page.old page.new (label.now ++ stage_text field) }
{
    put_signed(page, label, centimetres(millimetres(field)));
}
