//! What the definitions of session lines say by themselves: each a clause
//! of a function that does nothing.
ghost use Rattle.std.specs.Prelude.{◌≡◌, ℕ, List};
ghost use Rattle.rc_model.specs.Session.{Command};
ghost use Rattle.rc_script.specs.Says.{Saying, Says};
ghost use Rattle.rc_script.specs.Script.{IsScript, IsScriptFault};
ghost use Rattle.rc_script.specs.declared.script.ScriptFault.{ScriptFault};
ghost use Rattle.rc_script.specs.declared.script.ScriptFault.TheVariants.{Memory};

/// A line says one thing.
pub fn lines_say_one_thing()
    ensures { (line : List ℕ) (a b : Saying) → Says line a → Says line b → a ≡ b }
{}

/// A script gives one list of commands. It can be refused only because memory ran out.
pub fn scripts_give_one_list()
    ensures value { (names : List (List ℕ)) (text : List ℕ) (a b : List Command) →
        IsScript names text a → IsScript names text b → a ≡ b }
    ensures fault { (names : List (List ℕ)) (text : List ℕ) (commands : List Command)
        (fault : ScriptFault) → IsScript names text commands →
        IsScriptFault names text fault → fault ≡ Memory }
{}
