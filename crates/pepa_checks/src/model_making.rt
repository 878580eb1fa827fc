//! The model of a file that passes every check.
ghost use Rattle.std.specs.Prelude.{◌≡◌, map, IfOk};
ghost use Rattle.pepa_checks.specs.MadeModels.{MakesModel, AreNewParts, IsMade};

use crate::counting::Counted;
use crate::sets::set_lists;
use crate::shapes::{definitions, system_shape};
use crate::structured_file::StructuredFile;
use crate::summand::Performed;
use pepa_model::{ActivityList, ActivityLists, Bodies, Model, Shape2, Words32List};
use sqlite_items::Items;
use std::alloc::{AllocError, Global};

/// The activities of what a leaf performs.
fn activities_of(alloc: Global, list: &[Performed]) -> Result<ActivityList, AllocError>
    ensures { IfOk result (λ activities. activities ≡ map (λ performed. performed.activity) list.now) }
{
    let mut activities = Items::new(alloc);
    for performed in list {
        activities.push(performed.activity)?;
    }
    Ok(activities)
}

/// The activities of each leaf.
fn activity_lists(alloc: Global, lists: &[Items<Performed>]) -> Result<ActivityLists, AllocError>
    ensures { IfOk result (λ made. made ≡ map (map (λ performed. performed.activity)) lists.now) }
{
    let mut made = Items::new(alloc);
    for list in lists {
        made.push(activities_of(alloc, list.as_slice())?)?;
    }
    Ok(made)
}

/// The parts of a model that are made anew.
#[derive(Drop)]
struct NewParts {
    bodies: Bodies,
    activities: ActivityLists,
    sets: Words32List,
    system: Shape2,
}

/// Makes the parts of a file's model that aren't there yet.
fn new_parts(
    alloc: Global,
    file: &StructuredFile,
    counted: &Counted,
) -> Result<NewParts, AllocError>
    requires { MakesModel file.now counted.now }
    ensures { IfOk result (λ parts. AreNewParts file.now counted.now parts) }
{
    let view = file.view();
    let bodies = definitions(alloc, view, &counted.sets)?;
    let activities = activity_lists(alloc, counted.performed.as_slice())?;
    let sets = set_lists(alloc, &counted.sets)?;
    let system = system_shape(alloc, view.compounds, &counted.sets, view.system)?;
    Ok(NewParts {
        bodies,
        activities,
        sets,
        system,
    })
}

/// A model of a file's names and leaves and of these parts.
fn joined(file: StructuredFile, counted: Counted, parts: NewParts) -> Model
    requires ready { MakesModel file counted }
    requires parts { AreNewParts file counted parts }
    ensures { IsMade file counted result }
{
    let numbered = file.numbered;
    let leaves = counted.leaves;
    Model {
        constants: numbered.constants,
        actions: numbered.actions,
        bodies: parts.bodies,
        leaves: leaves.expressions,
        activities: parts.activities,
        sets: parts.sets,
        system: parts.system,
    }
}

/// The model of a file that passes every check: its names, its sets and what its constants stand for, and its leaves with
/// their activities.
pub(crate) fn model_of(
    alloc: Global,
    file: StructuredFile,
    counted: Counted,
) -> Result<Model, AllocError>
    requires { MakesModel file counted }
    ensures { IfOk result (λ m. IsMade file counted m) }
{
    let parts = new_parts(alloc, &file, &counted)?;
    Ok(joined(file, counted, parts))
}
