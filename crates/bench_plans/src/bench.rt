// The passes that lay a netlist out and its drawing, each with a line about what it gave.
ghost use Rattle.std.specs.Prelude.{◌≡◌, IfOk};
ghost use Rattle.layout_make.specs.Draw.{draw as drawn};
ghost use Rattle.layout_make.specs.MayDraw.{MayDraw};

use crate::fault::Fault;
use crate::size::Measured;
use blif_read::Netlist;
use cell_library::Library;
use circuit::{Answers, Pass};
use geom::Layout;
use layout_make::draw;
use plan_build::chip_plan;
use rowed::Placed;
use std::fmt::Display;
use std::io;
use std::time::{Clock, Duration, Instant};

/// Runs passes, and prints a line for each: its name, how much it gave and, where that is asked for, its time.
#[derive(Drop)]
pub struct Bench<'a, R> {
    pub rt: &'a R,
    pub shows_time: bool,
}

impl<R: AllocGlobal + Clock + Print> Bench<'_, R> {
    fn print(&self, name: &str, answer: &impl Display, took: Duration) -> io::Result<()> {
        if !self.shows_time {
            return println!(self.rt; "{name} {answer}");
        }
        let (whole, rest) = (took.as_millis(), took.as_micros() % 1_000);
        println!(self.rt; "{name} {answer} ms {whole}.{rest:03}")
    }

    /// Prints the line of a step: how much it gave, or that it was refused.
    fn print_step<T: Measured, E>(
        &self,
        name: &str,
        answer: &Result<T, E>,
        took: Duration,
    ) -> io::Result<()> {
        match answer {
            Ok(out) => self.print(name, &out.size(), took),
            Err(_) => self.print(name, &"refused", took),
        }
    }

    /// What the pass gives. A refusal has its line too.
    fn run<A: Answers, P: Pass<A>>(&self, name: &str, pass: &P, from: &A) -> Result<P::Out, Fault>
    where
        P::Out: Measured,
        Fault: From<P::Refusal>,
        ensures { IfOk result (P.may_give pass.now from.now) }
    {
        let start = Instant::now(self.rt)?;
        let answer = pass.run(self.rt.alloc(), from);
        let took = start.elapsed(self.rt)?;
        self.print_step(name, &answer, took)?;
        Ok(answer?)
    }

    /// The drawing of the chip. A refusal has its line too.
    fn draw(&self, chip: &Placed, cells: &Library) -> Result<Layout, Fault>
        requires { MayDraw chip.now cells.now }
        ensures { IfOk result (λ layout. layout ≡ drawn chip.now cells.now) }
    {
        let start = Instant::now(self.rt)?;
        let answer = draw(self.rt.alloc(), chip, cells);
        let took = start.elapsed(self.rt)?;
        self.print_step("draw", &answer, took)?;
        Ok(answer?)
    }

    /// Lays the netlist out with the cells, and draws the chip.
    pub fn lay_out(&self, net: &Netlist, cells: &Library) -> Result<(), Fault> {
        cells.known();
        let plan = chip_plan(self.rt.alloc(), cells)?;
        let gates = self.run("map", &plan.first.first.first, net)?;
        let rows = self.run("level", &plan.first.first.second, &gates)?;
        let placed = self.run("place", &plan.first.second, &rows)?;
        let chip = self.run("repeat", &plan.second, &placed)?;
        let _layout = self.draw(&chip, cells)?;
        Ok(())
    }
}
