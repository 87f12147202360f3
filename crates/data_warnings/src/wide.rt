//! Questions on the members of a set over all years, which are asked of whether it is so of some of them.

ghost use Rattle.std.specs.Prelude.{◌≡◌, ◌<◌, ◌≤◌, IfOk};
ghost use Rattle.model_sets.specs.Names.{region, set_count, technology};
ghost use Rattle.data_warnings.specs.Values.{count};
ghost use Rattle.data_warnings.specs.Wide.{IsAskedWidely, is_so_of, is_so_of_some, is_used, wide_over};

use crate::rules::Ceiling;
use crate::values::count;
use crate::yearly::{Yearly, ceiling_over, is_ever_so};
use model_sets::set_numbers::{FUEL, REGION};
use param_tables::ModelData;
use std::alloc::{AllocError, Global};

/// A question on the members of a set, by positions of region and technology.
#[derive(Clone, Copy, PartialEq, Eq)]
pub enum Wide {
    /// The technology makes the fuel.
    Makes(u16, u16),
    /// The technology makes the fuel or takes it.
    MakesOrTakes(u16, u16),
    /// The technology or the emission has a limit of 99999 or more.
    Towers(Ceiling, u16),
}

// The set over whose members the question goes.
fn wide_over(question: Wide) -> u8
    ensures set { result ≡ wide_over question }
    ensures listed { result ≤ set_count }
{
    match question {
        Wide::Makes(..) | Wide::MakesOrTakes(..) => FUEL,
        Wide::Towers(ceiling, _) => ceiling_over(ceiling),
    }
}

// Whether it is so of a member.
fn is_so_of(alloc: Global, model: &ModelData, question: Wide, i: u16) -> Result<bool, AllocError>
    requires asked { IsAskedWidely model.now.facts question }
    requires member { i < count model.now.facts (wide_over question) }
    ensures { IfOk result (λ is. is ≡ is_so_of model.now.facts question i) }
{
    match question {
        Wide::Makes(r, t) => is_ever_so(alloc, model, Yearly::Makes(r, t, i)),
        Wide::MakesOrTakes(r, t) => is_ever_so(alloc, model, Yearly::MakesOrTakes(r, t, i)),
        Wide::Towers(ceiling, r) => is_ever_so(alloc, model, Yearly::Towers(ceiling, r, i)),
    }
}

/// Whether it is so of some member. It may run out of memory.
pub(crate) fn is_so_of_some(
    alloc: Global,
    model: &ModelData,
    question: Wide,
) -> Result<bool, AllocError>
    requires { IsAskedWidely model.now.facts question }
    ensures { IfOk result (λ is. is ≡ is_so_of_some model.now.facts question) }
{
    for i in 0..count(model, wide_over(question)) {
        let so = is_so_of(alloc, model, question, i)?;
        if so {
            return Ok(true);
        }
    }
    Ok(false)
}

/// Whether the technology makes or takes something in some region. It may run out of memory.
pub(crate) fn is_used(alloc: Global, model: &ModelData, t: u16) -> Result<bool, AllocError>
    requires { t < count model.now.facts technology }
    ensures { IfOk result (λ is. is ≡ is_used model.now.facts t) }
{
    for r in 0..count(model, REGION) {
        let so = is_so_of_some(alloc, model, Wide::MakesOrTakes(r, t))?;
        if so {
            return Ok(true);
        }
    }
    Ok(false)
}
