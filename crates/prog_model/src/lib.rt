// The model that a byte of a program's input names.
#![tactic(auto)]

ghost use Rattle.std.specs.Prelude.{◌≡◌};
ghost use Rattle.prog_model.specs.Models.{model_of};

// The model that a byte names; 3, which is none, for any other: no Option, as the definition has the number, which each call judges.
#[tactic(auto, unfolding(crate::specs::Models::model_of))]
pub fn model_of(b: u8) -> u32
    ensures { result ≡ model_of b }
{
    match b {
        b'4' => 0,
        b'1' => 1,
        b'3' => 2,
        _ => 3,
    }
}
