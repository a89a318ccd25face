// The words of the program `ghcb_smp`.
ghost use Rattle.std.specs.Prelude.{◌≡◌, ◌≤◌, ◌∷◌, [], map, IfSome, option_map};
ghost use Rattle.std.specs.String.{string_bytes};
ghost use Rattle.ghcb_cli.specs.Command.{command_word, most_steps};
ghost use Rattle.ghcb_cli.specs.SmpCommand.{smp_steps};

use crate::command::{MOST_STEPS, decimal};

/// What the words of `ghcb_smp` ask for: the names of the image and of the input, and the most steps of each vCPU.
#[derive(Drop)]
pub struct SmpTask<'a> {
    pub image: &'a str,
    pub input: &'a str,
    pub steps: u64,
}

/// The task by its three words.
fn task_by<'a>(image: &'a str, input: &'a str, steps: &[u8]) -> Option<SmpTask<'a>>
    ensures steps { option_map (λ task. task.steps) result ≡ smp_steps (image.now ∷ input.now ∷ steps.now ∷ []) }
    ensures image { IfSome result (λ task. task.image.now ≡ image.now) }
    ensures input { IfSome result (λ task. task.input.now ≡ input.now) }
    ensures within { IfSome result (λ task. task.steps ≤ most_steps) }
{
    if image.is_empty() || input.is_empty() {
        return None;
    }
    match decimal(steps, 1, MOST_STEPS) {
        Some(steps) => Some(SmpTask {
            image,
            input,
            steps,
        }),
        None => None,
    }
}

/// What the words of `ghcb_smp` ask for; none exactly where they are none of its grammar.
pub fn smp_task_in(words: &[String]) -> Option<SmpTask<'_>>
    ensures steps { option_map (λ task. task.steps) result ≡ smp_steps (map string_bytes words.now) }
    ensures image { IfSome result (λ task. task.image.now ≡ command_word (map string_bytes words.now) 0) }
    ensures input { IfSome result (λ task. task.input.now ≡ command_word (map string_bytes words.now) 1) }
    ensures within { IfSome result (λ task. task.steps ≤ most_steps) }
{
    match words {
        [image, input, steps] => task_by(image.as_str(), input.as_str(), steps.as_bytes()),
        _ => None,
    }
}
