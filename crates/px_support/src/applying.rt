//! Applying an operator's instance to a model in its place.
ghost use Rattle.std.specs.Prelude.{◌≡◌, OnErr, OnOk};
ghost use Rattle.px_terms.specs.Operators.{result_of};
ghost use Rattle.px_terms.specs.Validity.{IsGroundInstanceOf, IsValid};

use px_base::NoMemory;
use px_ops::{Model, apply_in, schema_of};
use px_terms::{OpInst, Problem};

/// Changes the model to the one that the instance leaves.
///
/// # Errors
/// `NoMemory` where there is no memory for what the instance adds. The model is then as it was.
pub fn apply_to(problem: &Problem, model: &mut Model, inst: &OpInst) -> Result<(), NoMemory>
    requires problem { IsValid problem.now }
    requires inst { IsGroundInstanceOf problem.now inst.now }
    ensures ok { OnOk result (model.new.atoms ≡ result_of problem.now model.old.atoms inst.now) }
    ensures err { OnErr result (model.new ≡ model.old) }
{
    model.reserve(schema_of(problem, inst).add.len())?;
    apply_in(problem, model, inst);
    Ok(())
}
