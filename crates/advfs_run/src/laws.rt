//! A law of scripts, as the contract of a function with an empty body.
ghost use Rattle.std.specs.Prelude.{◌≡◌, ℕ, All, List, Ok};
ghost use Rattle.client_commands.specs.name_commands.Ending.{IsServed};
ghost use Rattle.run_parts.specs.script_text.Script.{script_of};
ghost use Rattle.run_parts.specs.script_text.declared.script.Script.{Script as ScriptOf};

/// Each command that a script gives to a client is a served one, with names of the forms that
/// answering requires.
pub fn a_script_is_served()
    ensures { (text : List ℕ) (script : ScriptOf) → script_of text ≡ Ok script
        → All (λ section. All IsServed section.commands) script.clients }
{}
