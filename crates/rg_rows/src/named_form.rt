//! A form with its name.
use rg_cert_meaning::Form;

/// A form of a case, the tokens at a state, the effect of a label or the tokens at the start in steps of the class's
/// marking, which is to be a whole number: `scale` times the form is the sum of the columns, each times its
/// coefficient. Wherever the rows of the case are met the form lies between `low` and `high`.
///
/// The coefficients are `times` those of row number `row`: the row that stayed for `tokens` of the state, for `down`
/// of the label, or for `tokens` of the initial state. Where all coefficients are 0, so are `row` and `times`.
#[derive(Drop)]
pub struct NamedForm {
    pub form: Form,
    pub scale: i128,
    pub coeffs: Vec<i128>,
    pub low: i64,
    pub high: i64,
    pub row: u32,
    pub times: i128,
}
