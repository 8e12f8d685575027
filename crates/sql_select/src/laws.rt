//! What follows from the meaning of a select.

ghost use Rattle.sql_select.specs.Laws.{DistinctLeavesOne, GroupsAreNotEmpty, LimitGivesAFront};
ghost use Rattle.sql_select.specs.Laws.{MinIsLeast, OrderKeepsRows, StarGivesRows};

/// ORDER BY leaves the same rows, none behind one that goes after it, and those that tie as they stood.
pub fn order_keeps_rows()
    ensures { OrderKeepsRows }
{}

/// LIMIT gives a front of the rows.
pub fn limit_gives_a_front()
    ensures { LimitGivesAFront }
{}

/// DISTINCT leaves each row's outputs, and no two rows with the same ones.
pub fn distinct_leaves_one()
    ensures { DistinctLeavesOne }
{}

/// No group of GROUP BY is empty.
pub fn groups_are_not_empty()
    ensures { GroupsAreNotEmpty }
{}

/// MIN is one of the values, and none of them is less.
pub fn min_is_least()
    ensures { MinIsLeast }
{}

/// `SELECT *` without WHERE, DISTINCT, ORDER BY and LIMIT gives the rows of its table, or all pairs of rows of its two.
pub fn star_gives_rows()
    ensures { StarGivesRows }
{}
