// Functions: prototypes and definitions (ISO C 6.7.6.3, 6.9.1).
ghost use Rattle.std.specs.Prelude.{◌≡◌, ◌<◌, ◌≤◌, ◌∷◌, [], IfOk, length, map};
ghost use Rattle.rc_base.specs.Limits.{most_depth, most_words};
ghost use Rattle.rc_syntax.specs.declared.word.Key.TheVariants.{Deletes, Void};
ghost use Rattle.rc_syntax.specs.Tokens.{key};
ghost use Rattle.rc_syntax.specs.Grammar as g;
ghost use Rattle.rc_syntax.specs.reader.Reading as r;
ghost use Rattle.rc_syntax.specs.Shape as shape;
ghost use Rattle.rc_words.specs.Words.{spot_of, Stands};
ghost use Rattle.rc_stmt.specs.Along.{Parses, Proceeds};
ghost use Rattle.rc_parser.specs.Shapes.{ending_of};

use crate::params::params_end;
use crate::parts::only;
use rc_stmt::{block, expect_mark, name, type_name};
use rc_syntax::fault::ParseFault;
use rc_syntax::tree::{Item, Name, Param, Spot, Stmt, TypeName};
use rc_syntax::word::{Key, Mark, Token};
use rc_words::{is_key, is_mark, spot_at};
use std::alloc::Global;

/// What stands after the parameters of a function: perhaps `deletes`, and a body or none.
#[derive(Drop)]
pub struct Ending {
    pub deletes: bool,
    pub body: Option<Vec<Stmt>>,
}

// ["deletes"] result NAME "(" [params] ")" ["deletes"] (block | ";")
/// Reads a function after the `deletes` at `at`.
pub fn deleting(alloc: Global, tokens: &[Token], at: u32) -> Result<(Vec<Item>, u32), ParseFault>
    requires few { length tokens.now ≤ most_words }
    requires here { Stands tokens.now at (key Deletes) }
    ensures reads { Parses g.Item 0 tokens.now at (λ v. map shape.item_of v.items) result }
    ensures place { IfOk result (λ r. (at < r.1) × (r.1 ≤ length tokens.now)) }
{
    if is_key(tokens, at + 1, Key::Void) {
        return function_named(alloc, tokens, true, None, at, at + 2);
    }
    let (returned, place) = type_name(alloc, tokens, at + 1, 0)?;
    function_named(alloc, tokens, true, Some(returned), at, place)
}

/// Reads a function after the `void` at `at`.
pub fn resultless(alloc: Global, tokens: &[Token], at: u32) -> Result<(Vec<Item>, u32), ParseFault>
    requires few { length tokens.now ≤ most_words }
    requires here { Stands tokens.now at (key Void) }
    ensures reads { Parses g.Item 0 tokens.now at (λ v. map shape.item_of v.items) result }
    ensures place { IfOk result (λ r. (at < r.1) × (r.1 ≤ length tokens.now)) }
{
    function_named(alloc, tokens, false, None, at, at + 1)
}

/// Reads the rest of a function that begins at `at`, after its result.
fn function_named(
    alloc: Global,
    tokens: &[Token],
    deletes: bool,
    returned: Option<TypeName>,
    at: u32,
    place: u32,
) -> Result<(Vec<Item>, u32), ParseFault>
    requires few { length tokens.now ≤ most_words }
    requires within { place ≤ length tokens.now }
    requires behind { at < place }
    ensures reads { Proceeds g.Item 0 tokens.now at place (r.function_named (spot_of tokens.now at) deletes (shape.mapped shape.type_of returned)) (λ v. map shape.item_of v.items) result }
    ensures place { IfOk result (λ r. (place < r.1) × (r.1 ≤ length tokens.now)) }
{
    let (name, behind) = name(tokens, place)?;
    let inside = expect_mark(tokens, behind, Mark::OpenParenthesis)?;
    function_params(alloc, tokens, deletes, returned, name, at, inside)
}

/// Reads the rest of a function that begins at `at`, after the parenthesis that opens its
/// parameters.
pub fn function_params(
    alloc: Global,
    tokens: &[Token],
    deletes: bool,
    returned: Option<TypeName>,
    name: Name,
    at: u32,
    place: u32,
) -> Result<(Vec<Item>, u32), ParseFault>
    requires few { length tokens.now ≤ most_words }
    requires within { place ≤ length tokens.now }
    requires behind { at < place }
    ensures reads { Proceeds g.Item 0 tokens.now at place (r.function_params (spot_of tokens.now at) deletes (shape.mapped shape.type_of returned) name) (λ v. map shape.item_of v.items) result }
    ensures place { IfOk result (λ r. (place < r.1) × (r.1 ≤ length tokens.now)) }
{
    let (params, behind) = params_end(alloc, tokens, place, 0)?;
    let (ending, end) = function_end(alloc, tokens, behind, 0)?;
    let function = function_of(spot_at(tokens, at), deletes, returned, name, params, ending);
    let items = only(alloc, function)?;
    Ok((items, end))
}

/// The function that these parts are; `deletes` says whether that word stands before the result.
fn function_of(
    spot: Spot,
    deletes: bool,
    returned: Option<TypeName>,
    name: Name,
    params: Vec<Param>,
    ending: Ending,
) -> Item
    ensures { shape.item_of result ∷ [] ≡ r.function_of spot deletes (shape.mapped shape.type_of returned) name (map shape.param_of params.items) (ending_of ending) }
{
    if deletes {
        Item::Function(spot, true, returned, name, params, ending.body)
    } else {
        Item::Function(spot, ending.deletes, returned, name, params, ending.body)
    }
}

// ["deletes"] (block | ";")
/// Reads what stands after the parameters of a function.
fn function_end(
    alloc: Global,
    tokens: &[Token],
    at: u32,
    depth: u32,
) -> Result<(Ending, u32), ParseFault>
    requires few { length tokens.now ≤ most_words }
    requires within { at ≤ length tokens.now }
    requires shallow { depth ≤ most_depth }
    ensures reads { Parses g.FunctionEnd depth tokens.now at ending_of result }
    ensures place { IfOk result (λ r. (at < r.1) × (r.1 ≤ length tokens.now)) }
{
    if is_key(tokens, at, Key::Deletes) {
        let (body, end) = body_end(alloc, tokens, at + 1, depth)?;
        let deleting = Ending {
            deletes: true,
            body,
        };
        return Ok((deleting, end));
    }
    let (body, end) = body_end(alloc, tokens, at, depth)?;
    let plain = Ending {
        deletes: false,
        body,
    };
    Ok((plain, end))
}

// block | ";"
/// Reads a body of a function, or a semicolon.
fn body_end(
    alloc: Global,
    tokens: &[Token],
    at: u32,
    depth: u32,
) -> Result<(Option<Vec<Stmt>>, u32), ParseFault>
    requires few { length tokens.now ≤ most_words }
    requires within { at ≤ length tokens.now }
    requires shallow { depth ≤ most_depth }
    ensures reads { Parses g.BodyEnd depth tokens.now at (λ b. shape.mapped (λ v. shape.stmts_of v.items) b) result }
    ensures place { IfOk result (λ r. (at < r.1) × (r.1 ≤ length tokens.now)) }
{
    if is_mark(tokens, at, Mark::Semicolon) {
        return Ok((None, at + 1));
    }
    let (body, end) = block(alloc, tokens, at, depth)?;
    Ok((Some(body), end))
}
