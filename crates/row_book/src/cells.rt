//! Where an equation may have instances in a region. Which timeslice it is, and which other region, doesn't
//! matter for that; so its instances are found by one list with each timeslice and each other region.

ghost use Rattle.std.specs.Prelude.{◌≡◌, ◌<◌, IfOk};
ghost use Rattle.model_sets.specs.Names as sets;
ghost use Rattle.row_core.specs.Equations.{IsEquation};
ghost use Rattle.named_equations.specs.Positions.{count_of};
ghost use Rattle.row_book.specs.Walks.{AreFirstAsked, outers_of};

use crate::ratios::{cells_of_some_mode, first_cells_of_ratio};
use crate::walk::{INNER, OUTER, in_region, walked};
use param_tables::{ActivityRatio, ModelData};
use row_core::Index;
use row_core::equation_numbers::{ACC1, ACC2, E1, EBA1, EBA2, EBA4, EBA5, RE1, RE5};
use std::alloc::{AllocError, Global};

/// The other regions and timeslices of the equation in a region, in order.
pub(crate) fn outers_of(
    alloc: Global,
    model: &ModelData,
    eq: u8,
    region: u16,
) -> Result<Vec<Index>, AllocError>
    requires { IsEquation eq }
    ensures { IfOk result (λ outers. outers.items ≡ outers_of model.now.facts eq region) }
{
    walked(alloc, model, eq, &OUTER, in_region(region))
}

/// The other subscripts with which it may have instances, in order. Where it stands by a ratio, these are the
/// ones of which the ratio isn't 0, and no others are looked at.
///
/// A ratio whose default isn't 0 may stand at hundreds of millions of indices, so of the subscripts with a mode only
/// the first `most` are listed. With each of them the equation has a row, which has an entry. The equations without
/// a mode come after those with one, and so after a row for each of the indices that they go by.
pub(crate) fn cells_of(
    alloc: Global,
    model: &ModelData,
    eq: u8,
    region: u16,
    most: usize,
) -> Result<Vec<Index>, AllocError>
    requires equation { IsEquation eq }
    requires region { region < count_of model.now.facts sets.region }
    ensures { IfOk result (λ cells. AreFirstAsked model.now.facts eq region most cells.items) }
{
    match eq {
        EBA1 => first_cells_of_ratio(alloc, model, ActivityRatio::Output, region, most),
        EBA4 => first_cells_of_ratio(alloc, model, ActivityRatio::Input, region, most),
        E1 => first_cells_of_ratio(alloc, model, ActivityRatio::Emission, region, most),
        EBA2 | ACC1 | RE1 => cells_of_some_mode(alloc, model, ActivityRatio::Output, region),
        EBA5 | ACC2 | RE5 => cells_of_some_mode(alloc, model, ActivityRatio::Input, region),
        _ => walked(alloc, model, eq, &INNER, in_region(region)),
    }
}
