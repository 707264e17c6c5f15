//! The number of tokens that a member of a set gives.
ghost use Rattle.std.specs.Prelude.{◌≡◌, ℕ, List, ◌<◌, ◌≤◌, MatchOption, MatchResult};
ghost use Rattle.std.specs.Str.Parse.{digits_value};
ghost use Rattle.rg_lexer.specs.Lexeme.{lexeme};
ghost use Rattle.rg_integers.specs.Range.{greatest};
ghost use Rattle.rg_net_grammar.specs.View.{IsNumberOf, IsMemberOf, member_in};
ghost use Rattle.rg_netfile.specs.Contents.{count_of, member_at};
ghost use Rattle.rg_netfile.specs.declared.fault.NetFault.TheVariants as fault;

use crate::fault::NetFault;
use crate::sums::GREATEST_WEIGHT;
use rg_grammar::name_of;
use rg_lexer::Token;
use rg_net_grammar::Member;

// The value of a number; None where it is over the greatest.
fn value_of(bytes: &[u8], number: Token) -> Option<u128>
    requires { IsNumberOf bytes.now number }
    ensures { MatchOption result (greatest < digits_value 10 (lexeme bytes.now number).text) (λ n. (n ≡ digits_value 10 (lexeme bytes.now number).text) × (n ≤ greatest)) }
{
    match name_of(bytes, number).parse::<u128>() {
        Ok(n) if n <= GREATEST_WEIGHT => Some(n),
        _ => None,
    }
}

// Where a member is.
pub(crate) fn member_at(member: Member<Token>) -> u32
    ensures { (bytes : List ℕ) → result ≡ member_at (member_in bytes member) }
{
    match member.number {
        Some(number) => number.from,
        None => member.place.from,
    }
}

// How many tokens a member is. `NumberPasses` where its number is over the greatest.
pub(crate) fn count_of(bytes: &[u8], member: Member<Token>) -> Result<u128, NetFault>
    requires { IsMemberOf bytes.now member }
    ensures { MatchResult result (λ n. (n ≡ count_of (member_in bytes.now member).number) × (n ≤ greatest))
        (λ f. (f ≡ fault.NumberPasses (member_at (member_in bytes.now member))) × (greatest < count_of (member_in bytes.now member).number)) }
{
    match member.number {
        None => Ok(1),
        Some(number) => match value_of(bytes, number) {
            Some(n) => Ok(n),
            None => Err(NetFault::NumberPasses(number.from)),
        },
    }
}
