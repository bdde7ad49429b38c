// Operations on literals.
ghost use Rattle.std.specs.Prelude.{◌≡◌, ◌<◌, ◌&&◌, ◌||◌, not, cond, IfOk};
ghost use Rattle.mig.specs.Graphs.{literal_value};
ghost use Rattle.mig.specs.Building.{Grown, Gives, limit};

use mig::{Builder, GraphRefusal, turned};

/// True where both are.
pub(crate) fn and(builder: &mut Builder, x: u32, y: u32) -> Result<u32, GraphRefusal>
    requires x { x < limit builder.old }
    requires y { y < limit builder.old }
    ensures grown { Grown builder.old builder.new }
    ensures given { IfOk result (λ l. Gives builder.new l (λ v. literal_value v x && literal_value v y)) }
{
    builder.maj(0, x, y)
}

/// True where one of the two is.
pub(crate) fn or(builder: &mut Builder, x: u32, y: u32) -> Result<u32, GraphRefusal>
    requires x { x < limit builder.old }
    requires y { y < limit builder.old }
    ensures grown { Grown builder.old builder.new }
    ensures given { IfOk result (λ l. Gives builder.new l (λ v. literal_value v x || literal_value v y)) }
{
    builder.maj(1, x, y)
}

/// True where the two differ.
pub(crate) fn differ(builder: &mut Builder, x: u32, y: u32) -> Result<u32, GraphRefusal>
    requires x { x < limit builder.old }
    requires y { y < limit builder.old }
    ensures grown { Grown builder.old builder.new }
    ensures given { IfOk result (λ l. Gives builder.new l
        (λ v. cond (literal_value v x) (not (literal_value v y)) (literal_value v y))) }
{
    let some = or(builder, x, y)?;
    let both = and(builder, x, y)?;
    and(builder, some, turned(both))
}

/// The second where the first is true, and else the third.
pub(crate) fn choice(
    builder: &mut Builder,
    x: u32,
    high: u32,
    low: u32,
) -> Result<u32, GraphRefusal>
    requires x { x < limit builder.old }
    requires high { high < limit builder.old }
    requires low { low < limit builder.old }
    ensures grown { Grown builder.old builder.new }
    ensures given { IfOk result (λ l. Gives builder.new l
        (λ v. cond (literal_value v x) (literal_value v high) (literal_value v low))) }
{
    let first = and(builder, x, high)?;
    let second = and(builder, turned(x), low)?;
    or(builder, first, second)
}
