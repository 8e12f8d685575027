//! What is kept of values for the function that makes one of them.

ghost use Rattle.std.specs.Prelude.{[], IfErr, OnOk};
ghost use Rattle.rql.specs.declared.function.Function as kind;
ghost use Rattle.rql.specs.AsOf.{IsOfQuery};
ghost use Rattle.rql.specs.Tallies.{AddsValue, IsInOne, IsTally};

use crate::better::better;
use crate::carried::Carried;
use crate::function::{Extreme, Function};
use fold_kit::Folds;
use retro_base::Refusal;
use std::alloc::{AllocError, Global};
use values::Value;

/// The best of some values, or the sum of them, or of 1 for each.
#[derive(Drop)]
pub(crate) struct Tally {
    pub best: Option<Value>,
    pub sum: Carried,
    pub has_text: bool,
}

impl Tally {
    /// The tally of no values.
    pub(crate) fn new() -> Tally
        ensures { (function : kind.Function) → IsTally function result [] }
    {
        Tally {
            best: None,
            sum: Carried::zero(),
            has_text: false,
        }
    }

    /// Adds a value.
    pub(crate) fn add<F: Folds>(
        &mut self,
        alloc: Global,
        folds: &F,
        function: Function,
        value: &Value,
    ) -> Result<(), AllocError>
        ensures { OnOk result (AddsValue function value.now self.old self.new) }
    {
        match function {
            Function::Min => {
                let best = self.best.take();
                self.best = Some(better(alloc, folds, Extreme::Least, best, value)?);
            }
            Function::Max => {
                let best = self.best.take();
                self.best = Some(better(alloc, folds, Extreme::Greatest, best, value)?);
            }
            Function::Sum => match value {
                Value::Int(number) => self.sum = self.sum.plus(folds, *number)?,
                Value::Text(_) => self.has_text = true,
            },
            Function::Count => self.sum = self.sum.plus(folds, 1)?,
        }
        Ok(())
    }

    /// The values in one, where there is one.
    pub(crate) fn finish(self, function: Function) -> Result<Option<Value>, Refusal>
        ensures exact { IsInOne function self result }
        ensures named { IfErr result IsOfQuery }
    {
        match function {
            Function::Min | Function::Max => Ok(self.best),
            Function::Sum if self.has_text => Err(Refusal::WrongType),
            Function::Sum | Function::Count => Ok(Some(self.sum.whole()?)),
        }
    }
}
