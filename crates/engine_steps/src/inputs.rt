//! The inputs of a plan.
use crate::error::StepError;
use std::alloc::Global;
use td_plan::Plan;

/// The numbers of a plan's inputs. Refusal: `Memory`.
pub(crate) fn inputs_of(alloc: Global, plan: &Plan) -> Result<Vec<u8>, StepError> {
    let mut inputs = Vec::new(alloc);
    for vertex in plan.vertices() {
        if vertex.is_input() {
            inputs.push(vertex.number())?;
        }
    }
    Ok(inputs)
}
