// The choice of a cut for each node that the outputs need. Nothing depends on it but which nodes there are.
use crate::cuts::{Cut, find_cuts, leaves_before, levels_of};
use crate::recipes::Recipes;
use aq_base::Memory;
use mig::Graph;
use std::alloc::Global;

/// What a step costs, as a flow.
const STEP: u32 = 256;

fn value_at(values: &[u32], node: u32) -> u32 {
    values.get(node as usize).copied().unwrap_or(0)
}

fn is_at(values: &[bool], node: u32) -> bool {
    values.get(node as usize).copied().unwrap_or(false)
}

/// When a result is there, by when its leaves are, and their delays.
fn arrival(arrivals: &[u32], cut: &Cut, delays: &[u32; 3]) -> u32 {
    let mut most = 0u32;
    for place in 0..3usize {
        if place < cut.count && delays[place] > 0 {
            let at = value_at(arrivals, cut.leaves[place]).saturating_add(delays[place] - 1);
            most = most.max(at);
        }
    }
    most
}

/// The flows of the leaves of a cut that are not used.
fn flows(flow: &[u32], used: &[bool], cut: &Cut) -> u32 {
    let mut sum = 0u32;
    for place in 0..3usize {
        if place < cut.count && !is_at(used, cut.leaves[place]) {
            sum = sum.saturating_add(value_at(flow, cut.leaves[place]));
        }
    }
    sum
}

/// How many steps the recipes of a truth number have.
fn steps_of(recipes: &Recipes, truth: u8) -> u32 {
    match recipes.of_truth(truth).first() {
        Some(number) => match recipes.find(truth, *number) {
            Some(recipe) => u32::try_from(recipe.steps.len()).unwrap_or(0),
            None => 0,
        },
        None => 0,
    }
}

/// The least arrival by a recipe of a cut.
fn least_arrival(recipes: &Recipes, arrivals: &[u32], cut: &Cut) -> u32 {
    let mut least = u32::MAX;
    for number in recipes.of_truth(cut.truth) {
        if let Some(recipe) = recipes.find(cut.truth, *number) {
            least = least.min(arrival(arrivals, cut, &recipe.delays));
        }
    }
    least
}

/// How many operands and outputs name each node.
fn uses(alloc: Global, graph: &Graph, total: usize) -> Result<Vec<u32>, Memory> {
    let mut counts = vec![in alloc; 0u32; total]?;
    for number in 0..graph.node_count() {
        let node = graph.node(number);
        add_one(&mut counts, node.x);
        add_one(&mut counts, node.y);
        add_one(&mut counts, node.z);
    }
    for output in graph.outputs() {
        add_one(&mut counts, *output);
    }
    Ok(counts)
}

fn add_one(counts: &mut Vec<u32>, literal: u32) {
    let number = (literal / 2) as usize;
    if number < counts.len() {
        counts[number] = counts[number].saturating_add(1);
    }
}

/// All but the last of a node's cuts.
fn proper(cuts: &[Vec<Cut>], node: usize) -> &[Cut] {
    match cuts.get(node) {
        Some(found) => {
            if found.len() > 0 {
                found.as_slice().split_at(found.len() - 1).0
            } else {
                &[]
            }
        }
        None => &[],
    }
}

/// When each node can be there, and what it costs as a flow.
#[derive(Drop)]
struct Costs {
    arrivals: Vec<u32>,
    flow: Vec<u32>,
}

/// The best of a node's cuts by time.
fn cost(recipes: &Recipes, costs: &Costs, none: &[bool], cuts: &[Cut]) -> (u32, u32) {
    let mut best: Option<Cut> = None;
    let mut time = 0u32;
    let mut price = 0u32;
    for cut in cuts {
        let a = least_arrival(recipes, &costs.arrivals, cut);
        let c = STEP
            .saturating_mul(steps_of(recipes, cut.truth))
            .saturating_add(flows(&costs.flow, none, cut));
        let better = match &best {
            Some(old) => {
                a < time || (a == time && (c < price || (c == price && leaves_before(cut, old))))
            }
            None => true,
        };
        if better {
            best = Some(*cut);
            time = a;
            price = c;
        }
    }
    (time, price)
}

fn costs_of(
    alloc: Global,
    graph: &Graph,
    recipes: &Recipes,
    cuts: &[Vec<Cut>],
    uses: &[u32],
) -> Result<Costs, Memory> {
    let none = Vec::new(alloc);
    let mut costs = Costs {
        arrivals: Vec::new(alloc),
        flow: Vec::new(alloc),
    };
    costs.arrivals.push(0)?;
    costs.flow.push(0)?;
    for _input in 0..graph.inputs() {
        costs.arrivals.push(0)?;
        costs.flow.push(0)?;
    }
    for _number in 0..graph.node_count() {
        let at = costs.arrivals.len();
        let (time, price) = cost(recipes, &costs, &none, proper(cuts, at));
        let shared = uses.get(at).copied().unwrap_or(0).max(1);
        costs.arrivals.push(time)?;
        costs.flow.push(price / shared)?;
    }
    Ok(costs)
}

/// Which nodes are used, by when they are required, and by which cut.
#[derive(Drop)]
struct Demand {
    used: Vec<bool>,
    required: Vec<u32>,
}

impl Demand {
    fn ask(&mut self, node: u32, time: u32) {
        let number = node as usize;
        if number < self.used.len() {
            self.used[number] = true;
        }
        if number < self.required.len() {
            self.required[number] = self.required[number].min(time);
        }
    }
}

fn delays_before(one: &[u32; 3], other: &[u32; 3]) -> bool {
    if one[0] != other[0] {
        return one[0] < other[0];
    }
    if one[1] != other[1] {
        return one[1] < other[1];
    }
    one[2] < other[2]
}

/// A cut, with the delays of the recipe that was thought of.
#[derive(Clone, Copy)]
struct Pick {
    cut: Cut,
    delays: [u32; 3],
    price: u32,
    time: u32,
}

fn is_better(one: &Pick, other: &Pick) -> bool {
    if one.price != other.price {
        return one.price < other.price;
    }
    if one.time != other.time {
        return one.time < other.time;
    }
    if leaves_before(&one.cut, &other.cut) {
        return true;
    }
    if leaves_before(&other.cut, &one.cut) {
        return false;
    }
    delays_before(&one.delays, &other.delays)
}

/// The cheapest of a node's cuts and recipes that is there in time.
fn cheapest(
    recipes: &Recipes,
    costs: &Costs,
    demand: &Demand,
    cuts: &[Cut],
    required: u32,
) -> Option<Pick> {
    let mut best: Option<Pick> = None;
    for cut in cuts {
        let price = STEP
            .saturating_mul(steps_of(recipes, cut.truth))
            .saturating_add(flows(&costs.flow, &demand.used, cut));
        for number in recipes.of_truth(cut.truth) {
            if let Some(recipe) = recipes.find(cut.truth, *number) {
                let time = arrival(&costs.arrivals, cut, &recipe.delays);
                if time <= required {
                    let one = Pick {
                        cut: *cut,
                        delays: recipe.delays,
                        price,
                        time,
                    };
                    let better = match &best {
                        Some(old) => is_better(&one, old),
                        None => true,
                    };
                    if better {
                        best = Some(one);
                    }
                }
            }
        }
    }
    best
}

/// For each node its cut, if the outputs need it.
pub(crate) fn choose(
    alloc: Global,
    graph: &Graph,
    recipes: &Recipes,
) -> Result<Vec<Option<Cut>>, Memory> {
    let levels = levels_of(alloc, graph)?;
    let cuts = find_cuts(alloc, graph, &levels)?;
    let uses = uses(alloc, graph, cuts.len())?;
    let costs = costs_of(alloc, graph, recipes, &cuts, &uses)?;
    let mut demand = Demand {
        used: vec![in alloc; false; cuts.len()]?,
        required: vec![in alloc; u32::MAX; cuts.len()]?,
    };
    let mut depth = 0u32;
    for output in graph.outputs() {
        depth = depth.max(value_at(&costs.arrivals, *output / 2));
    }
    for output in graph.outputs() {
        demand.ask(*output / 2, depth);
    }
    let mut chosen: Vec<Option<Cut>> = vec![in alloc; None; cuts.len()]?;
    let mut left = cuts.len();
    let first = graph.inputs() as usize;
    while left > 0 {
        left -= 1;
        if left > first && left < chosen.len() && demand.used.get(left).copied().unwrap_or(false) {
            let required = demand.required.get(left).copied().unwrap_or(0);
            if let Some(one) = cheapest(recipes, &costs, &demand, proper(&cuts, left), required) {
                chosen[left] = Some(one.cut);
                for place in 0..3usize {
                    if place < one.cut.count {
                        let delay = one.delays[place].saturating_sub(1);
                        demand.ask(one.cut.leaves[place], required.saturating_sub(delay));
                    }
                }
            }
        }
    }
    Ok(chosen)
}
