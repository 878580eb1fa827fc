//! Sequential processes as expressions.
ghost use Rattle.std.specs.Prelude.{◌≡◌, false, IfOk};
ghost use Rattle.pepa_model.specs.Expression.{expression_of};
ghost use Rattle.pepa_resolver.specs.NamedTypes.{named_of};
ghost use Rattle.pepa_checks.specs.Structure.{has_system};
ghost use Rattle.pepa_checks.specs.Outline.{expression_in};

use pepa_model::Sequential;
use pepa_resolver::NamedProcess;
use std::alloc::{AllocError, Global};

/// A sequential process as an expression.
pub(crate) fn sequential_of(alloc: Global, process: &NamedProcess) -> Result<Sequential, AllocError>
    requires { has_system (named_of process.now) ≡ false }
    ensures { IfOk result (λ e. expression_of e ≡ expression_in (named_of process.now)) }
{
    match process {
        NamedProcess::Constant { number, .. } => Ok(Sequential::Constant(*number)),
        NamedProcess::Prefix {
            action,
            rate,
            next,
            ..
        } => {
            let next = Box::new(alloc, sequential_of(alloc, next)?)?;
            Ok(Sequential::Prefix(*action, *rate, next))
        }
        NamedProcess::Choice(left, right) => {
            let left = Box::new(alloc, sequential_of(alloc, left)?)?;
            let right = Box::new(alloc, sequential_of(alloc, right)?)?;
            Ok(Sequential::Choice(left, right))
        }
        NamedProcess::Coop { .. } => unreachable!(),
        NamedProcess::Hide { .. } => unreachable!(),
    }
}
