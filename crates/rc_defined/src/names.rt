// What names stand for, and lists of names.
ghost use Rattle.std.specs.Prelude.{◌≡◌, ◌++◌, ◌∷◌, [], false, option_map, IfErr, OnOk};
ghost use Rattle.rc_deletes.specs.Items as rule;
ghost use Rattle.rc_deletes.specs.Scopes.{meaning_in};
ghost use Rattle.rc_rules.specs.Shapes.{meaning_of};
ghost use Rattle.rc_defined.specs.Contexts.{scope_of};

use rc_rules::Meaning;
use rc_scope::{Names, Scopes};
use rc_syntax::tree::Name;
use rc_typed_values::Stop;

/// What a name stands for here.
#[tactic(auto, using(crate::proofs::Meanings::meaning_is))]
pub fn meaning<'a>(names: &'a Scopes<Meaning>, name: &Name) -> Option<&'a Meaning>
    ensures { option_map (λ m. meaning_of m.now) result ≡ meaning_in (scope_of names.now) name.now.text }
{
    names.find(name.text.as_slice())
}

/// Puts a name after others, where it is not among them.
pub fn add_name(names: &mut Names, name: &Name) -> Result<(), Stop>
    ensures ok { OnOk result (names.new ≡ rule.with_new names.old name.now.text) }
    ensures added { rule.is_among names.old name.now.text ≡ false → OnOk result (names.new ≡ names.old ++ name.now.text ∷ []) }
    ensures err { IfErr result (λ s. s ≡ Stop.Memory) }
{
    if names.len() >= u32::MAX as usize {
        return Err(Stop::Memory);
    }
    names.number(name.text.as_slice())?;
    Ok(())
}
