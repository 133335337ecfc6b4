// Claims as lists of facts.
ghost use Rattle.std.specs.Prelude.{◌≡◌, ◌<◌, ◌≤◌, ◌++◌, ◌∷◌, ◌⊎◌, ◌↔◌, ℕ, [], List, IsTrue, OnOk, IfOk, length, drop, get_or};
ghost use Rattle.rc_facts.specs.declared.fact.Fact.{Fact as AnyFact};
ghost use Rattle.rc_claims.specs.Bits.{claims};
ghost use Rattle.rc_edges.specs.News.{fact_if, row_news, rows_news};
ghost use Rattle.rc_image_claims.specs.Naming.{is_listed, Named};

use rc_base::NoMemory;
use rc_claims::has_fact;
use rc_facts::Fact;
use std::alloc::Global;

/// Puts a fact behind the others, if so.
fn add_if(out: &mut Vec<Fact>, so: bool, fact: Fact) -> Result<(), NoMemory>
    ensures { (rest : List AnyFact) → OnOk result (out.new.items ++ rest ≡ out.old.items ++ fact_if so fact rest) }
{
    if so {
        out.push(fact)?;
    }
    Ok(())
}

/// Of one variable and each other, with names.
fn add_row(
    out: &mut Vec<Fact>,
    bytes: &[u8],
    n: u32,
    variable: u32,
    name: u32,
    names: &[u32],
) -> Result<(), NoMemory>
    requires variable { variable < n }
    requires few { n ≤ 128 }
    requires names { length names.now ≤ n }
    ensures { OnOk result (out.new.items ≡ out.old.items ++ row_news (claims n bytes.now) variable name names.now 0) }
{
    let mut at = 0u32;
    for other in names {
        let inside = has_fact(bytes, n, Fact::In(variable, at));
        add_if(out, inside, Fact::In(name, *other))?;
        let above = has_fact(bytes, n, Fact::Up(variable, at));
        add_if(out, above, Fact::Up(name, *other))?;
        at = at.checked_add(1).ok_or(NoMemory)?;
    }
    Ok(())
}

/// Of each variable, with names.
fn add_rows(out: &mut Vec<Fact>, bytes: &[u8], n: u32, names: &[u32]) -> Result<(), NoMemory>
    requires few { n ≤ 128 }
    requires names { length names.now ≤ n }
    ensures { OnOk result (out.new.items ≡ out.old.items ++ rows_news (claims n bytes.now) names.now names.now 0) }
{
    let mut at = 0u32;
    for name in names {
        let traditional = has_fact(bytes, n, Fact::Trad(at));
        add_if(out, traditional, Fact::Trad(*name))?;
        let present = has_fact(bytes, n, Fact::NonNull(at));
        add_if(out, present, Fact::NonNull(*name))?;
        add_row(out, bytes, n, at, *name, names)?;
        at = at.checked_add(1).ok_or(NoMemory)?;
    }
    Ok(())
}

/// Makes room for the facts that bits mostly claim over `n` variables.
fn make_room(out: &mut Vec<Fact>, n: usize) -> Result<(), NoMemory>
    requires { n ≤ 128 }
    ensures { out.new.items ≡ out.old.items }
{
    let most = 2 * n * (n + 1);
    out.reserve(most.min(64))?;
    Ok(())
}

/// Puts the facts that these bits claim behind the others, with these names for their variables.
///
/// # Errors
///
/// Out of memory.
pub fn add_claims(out: &mut Vec<Fact>, bytes: &[u8], names: &[u32]) -> Result<(), NoMemory>
    requires few { length names.now ≤ 128 }
    ensures { OnOk result ((fact : AnyFact) → IsTrue (is_listed out.new.items fact) ↔ (IsTrue (is_listed out.old.items fact) ⊎ Named (claims (length names.now) bytes.now) names.now fact)) }
{
    make_room(out, names.len())?;
    add_rows(out, bytes, names.len() as u32, names)?;
    Ok(())
}

fn put(out: &mut Vec<u32>, number: u32) -> Result<(), NoMemory>
    ensures { OnOk result (out.new.items ≡ out.old.items ++ number ∷ []) }
{
    out.push(number)?;
    Ok(())
}

/// The numbers from 0 to below `n`, with room for one more.
///
/// # Errors
///
/// Out of memory.
pub fn numbers_below(alloc: Global, n: u32) -> Result<Vec<u32>, NoMemory>
    ensures long { IfOk result (λ numbers. length numbers.items ≡ n) }
    ensures each { IfOk result (λ numbers. (x : ℕ) → x < n → get_or numbers.items x 0 ≡ x) }
{
    let mut numbers = Vec::with_capacity(alloc, n as usize + 1)?;
    for number in 0..n {
        put(&mut numbers, number)?;
    }
    Ok(numbers)
}
