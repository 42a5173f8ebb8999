// What holds of every text, as functions whose contract is the law.
ghost use Rattle.std.specs.Prelude.{◌≡◌, ◌⊎◌, ℕ, List};
ghost use Rattle.script.specs.Script.{IsNoScript, IsScript};
ghost use Rattle.script.specs.declared.sections.Script.{Script};

use sql_lex::{each_text_has_tokens, one_end, one_token_list};

/// A text is at most one script.
pub fn one_script()
    ensures { (text : List ℕ) (a b : Script) → IsScript text a → IsScript text b → a ≡ b }
{
    one_token_list();
}

/// A text that is a script has no place at which it is none, and any other has at most one.
pub fn one_fault()
    ensures not_both { (text : List ℕ) (script : Script) (at : ℕ) → IsScript text script → IsNoScript text at
        → ⊥ }
    ensures one_place { (text : List ℕ) (at place : ℕ) → IsNoScript text at → IsNoScript text place
        → at ≡ place }
{
    one_token_list();
}

/// Each text, of any bytes, is a script, or there is a first place at which it is none.
pub fn script_or_fault()
    ensures { (text : List ℕ) → ((script : Script) × IsScript text script) ⊎ ((at : ℕ) × IsNoScript text at) }
{
    each_text_has_tokens();
    one_token_list();
    one_end();
}
