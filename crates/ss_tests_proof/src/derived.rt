// Derivations, and what the check says of them. A row has premises, a goal, the lines of the derivation and the answer.

/// Derivations of which each line is a step, as docs/OBLIGATIONS.md has it.
pub const ACCEPTED: &str = "
# the worked example of docs/OBLIGATIONS.md
given (not (= x1 x0))
given (= (field s0 x1 f0) 7)
goal (= (field (set s0 x0 f0 5) x1 f0) 7)
obligation 0
premise 0
premise 1
denied
rule read 0 (set s0 x0 f0 5) x1 0
part 3 1
split 4 2
case
clash 5 0
case
chain (field (set s0 x0 f0 5) x1 f0) 7 5 1
clash 6 2
end
accepted

# both, by cases
given (or (= b0 true) (= b1 true))
given (or (= b0 true) (not (= b1 true)))
given (or (not (= b0 true)) (= b1 true))
goal (and (= b0 true) (= b1 true))
obligation 0
premise 0
premise 1
premise 2
denied
split 0 2
case
split 2 2
case
clash 4 5
case
split 3 2
case
clash 4 6
case
clash 5 6
case
split 1 2
case
split 3 2
case
clash 5 6
case
clash 4 6
case
clash 4 5
end
accepted

# the first and the last part
given (and (com s0 x0) (com s0 x1) (not (com s0 x0)))
goal (= x0 x1)
obligation 0
premise 0
part 0 0
part 0 2
clash 1 2
end
accepted

# a `split` without cases closes the case
given (or (com s0 x0) (or ))
goal (com s0 x0)
obligation 0
premise 0
denied
split 0 2
case
clash 2 1
case
split 2 0
end
accepted

# a cut of an atom
given (or (not (= x0 x1)) (com s0 x0))
given (or (= x0 x1) (com s0 x0))
goal (com s0 x0)
obligation 0
premise 0
premise 1
denied
cut (= x0 x1)
case
split 0 2
case
clash 3 4
case
clash 4 2
case
split 1 2
case
clash 4 3
case
clash 4 2
end
accepted

# a cut of a `forall`, and of an `exists`
goal (or (forall object (com s0 v0)) (exists object (not (com s0 v0))))
obligation 0
denied
cut (forall object (com s0 v0))
case
part 0 0
clash 1 2
case
cut (exists object (not (com s0 v0)))
case
part 0 1
clash 2 3
case
part 0 0
clash 3 2
end
accepted

# the body at a term
given (not (com s0 (field s0 x0 f2)))
goal (exists object (not (com s0 v0)))
obligation 0
premise 0
denied
inst 1 (field s0 x0 f2)
clash 2 0
end
accepted

# the body at terms of two sorts
given (forall object int (<= (elemi s0 v0 v1) (+ v1 5)))
goal (<= (elemi s0 x0 (- i0 1)) (+ (- i0 1) 5))
obligation 0
premise 0
denied
inst 0 x0 (- i0 1)
clash 2 1
end
accepted

# the numbers of names that are bound further in fall
given (forall object (exists int (= (elemi s0 v0 v1) 3)))
goal (exists int (= (elemi s0 x0 v0) 3))
obligation 0
premise 0
denied
inst 0 x0
clash 2 1
end
accepted

# new constants
given (exists object int (= (elemi s0 v0 v1) 5))
goal (exists int object (= (elemi s0 v1 v0) 5))
obligation 0
premise 0
denied
choose (exists object int (= (elemi s0 v0 v1) 5)) x0 i0
split 2 2
case
clash 0 3
case
inst 1 i0 x0
clash 3 4
end
accepted

# one constant in two cases
given (or (exists int (not (= v0 v0))) (exists int (not (= (+ v0 1) (+ v0 1)))))
goal (= x0 x1)
obligation 0
premise 0
split 0 2
case
choose (exists int (not (= v0 v0))) i7
split 2 2
case
clash 1 3
case
clash 3 3
case
choose (exists int (not (= (+ v0 1) (+ v0 1)))) i7
split 2 2
case
clash 1 3
case
clash 3 3
end
accepted

# the next reference
goal (not (= (next s0) null))
obligation 0
denied
rule fresh 0 s0
part 1 1
clash 0 2
end
accepted

# what counts as a class counts as the class above it
given (sub x0 c6)
goal (sub x0 c4)
obligation 0
premise 0
denied
rule class 1 x0 c6
split 2 2
case
clash 0 3
case
clash 3 1
end
accepted

# nothing counts as two unrelated classes
given (sub x0 c4)
given (sub x0 c10)
goal (= 0 1)
obligation 0
premise 0
premise 1
rule class 2 x0 c4 c10
split 2 2
case
clash 0 3
case
clash 1 3
end
accepted

# an owner that is a pair
goal (not (isgroup (pair x0 c4)))
obligation 0
denied
rule split 0 (pair x0 c4)
clash 0 1
end
accepted

# equal pairs
given (= (pair x0 c4) (pair x1 c6))
goal (= x0 x1)
obligation 0
premise 0
rule split 1 (pair x0 c4) (pair x1 c6)
part 1 1
split 2 2
case
clash 0 3
case
clash 3 3
end
accepted

# different numbers
given (not (= i0 i1))
given (not (<= (+ i0 1) i1))
goal (<= (+ i1 1) i0)
obligation 0
premise 0
premise 1
denied
rule apart i0 i1
split 3 3
case
clash 4 0
case
clash 4 1
case
clash 4 2
end
accepted

# a remainder
goal (<= (rem i0 3) 2)
obligation 0
denied
rule quorem i0 3
part 1 3
clash 2 0
end
accepted

# a truth value
given (not (= b0 true))
goal (= b0 false)
obligation 0
premise 0
denied
rule bool b0
split 2 2
case
clash 3 0
case
clash 3 1
end
accepted

# a committed object has its full level
given (good s0)
given (alloc s0 x0)
given (com s0 x0)
goal (= (inv s0 x0) (type x0))
obligation 0
premise 0
premise 1
premise 2
denied
good g2 0 x0
split 4 3
case
clash 1 5
case
clash 2 5
case
clash 5 3
end
accepted

# the owner of a committed object is packed
given (alloc s0 x0)
given (= (own s0 x0) (pair x1 c4))
given (com s0 x0)
given (good s0)
goal (sub (inv s0 x1) c4)
obligation 0
premise 0
premise 1
premise 2
premise 3
denied
good g3 3 0 x0 x1 c4
part 5 0
split 6 4
case
clash 0 7
case
clash 1 7
case
clash 2 7
case
clash 7 4
end
accepted

# an object of a group isn't committed
given (good s0)
given (isgroup (own s0 x0))
given (alloc s0 x0)
goal (not (com s0 x0))
obligation 0
premise 0
premise 1
premise 2
denied
good g3 0 1 x0
split 4 3
case
clash 2 5
case
clash 1 5
case
clash 3 5
end
accepted

# the owner of what a rep field refers to
given (good s0)
given (alloc s0 x0)
given (sub (type x0) c4)
given (not (= (field s0 x0 f2) null))
goal (= (own s0 (field s0 x0 f2)) (pair x0 c4))
obligation 0
premise 0
premise 1
premise 2
premise 3
denied
good g4 0 x0 2
split 5 4
case
clash 1 6
case
clash 2 6
case
clash 6 3
case
clash 6 4
end
accepted

# a length
given (good (set s0 x0 f0 5))
given (alloc (set s0 x0 f0 5) x1)
goal (<= (len x1) 2147483647)
obligation 0
premise 0
premise 1
denied
good g5 0 8 x1
part 3 1
split 4 2
case
clash 1 5
case
clash 5 2
end
accepted

# a field of a ready object that isn't null
given (good s0)
given (alloc s0 x0)
given (sub (type x0) c4)
given (ready s0 x0)
goal (not (= (field s0 x0 f3) null))
obligation 0
premise 0
premise 1
premise 2
premise 3
denied
good g6 0 0 x0 3
part 5 1
split 6 4
case
clash 1 7
case
clash 2 7
case
clash 3 7
case
clash 4 7
end
accepted

# an invariant of an object that is packed at the class
given (good s0)
given (alloc s0 x0)
given (sub (inv s0 x0) c4)
goal (<= 0 (field s0 x0 f0))
obligation 0
premise 0
premise 1
premise 2
denied
good g1 0 x0 c4
split 4 3
case
clash 1 5
case
clash 2 5
case
part 5 0
part 6 1
clash 7 3
end
accepted

# equalities in either direction
given (= x0 x1)
given (= x2 x1)
given (= x2 x3)
goal (= x0 x3)
obligation 0
premise 0
premise 1
premise 2
denied
chain x0 x3 0 1 2
clash 4 3
end
accepted

# arguments that are the same or equal, either way round
given (= x0 x1)
given (= i1 i0)
goal (= (elemi s0 x0 i0) (elemi s0 x1 i1))
obligation 0
premise 0
premise 1
denied
cong (elemi s0 x0 i0) (elemi s0 x1 i1) 0 1
clash 3 2
end
accepted

# the negation of an atom at equal arguments
given (= s1 s0)
given (= x0 x1)
given (not (com s0 x0))
goal (not (com s1 x1))
obligation 0
premise 0
premise 1
premise 2
denied
swap 2 (not (com s1 x1)) 0 1
clash 4 3
end
accepted

# an equality at equal arguments
given (= x0 x1)
given (= x0 x2)
goal (= x1 x2)
obligation 0
premise 0
premise 1
denied
swap 1 (= x1 x2) 0
clash 3 2
end
accepted

# a negated equality at equal arguments
given (= x0 x1)
given (not (= x0 x2))
goal (not (= x1 x2))
obligation 0
premise 0
premise 1
swap 1 (not (= x1 x2)) 0
denied
clash 2 3
end
accepted

# a truth value is one of two
goal (or (= b0 true) (= b0 false))
obligation 0
rule bool b0
denied
part 1 0
part 1 1
split 0 2
case
clash 2 4
case
clash 4 3
end
accepted

# different numbers that are equal
given (= 3 -3)
goal (= x0 x1)
obligation 0
premise 0
clash 0 0
end
accepted

# different truth values that are equal
given (= true false)
goal (= x0 x1)
obligation 0
premise 0
clash 0 0
end
accepted

# a class that is null
given (= null c4)
goal (= x0 x1)
obligation 0
premise 0
clash 0 0
end
accepted

# different classes that are equal
given (= c4 c6)
goal (= x0 x1)
obligation 0
premise 0
clash 0 0
end
accepted

# a number below 0
given (<= 0 -1)
goal (= x0 x1)
obligation 0
premise 0
clash 0 0
end
accepted

# a term that differs from itself
goal (= (own s0 x0) (own s0 x0))
obligation 0
denied
clash 0 0
end
accepted

# a quantified formula and its negation
given (exists object int (not (= (elemi s0 v0 v1) 0)))
goal (exists object int (not (= (elemi s0 v0 v1) 0)))
obligation 0
premise 0
denied
clash 1 0
end
accepted

# two inequalities
given (<= i0 3)
given (<= 4 i0)
goal (= x0 x1)
obligation 0
premise 0
premise 1
sum 1 0 1 1 1
clash 2 2
end
accepted

# an equality, with a weight below 0
given (= i0 (+ i1 1))
given (<= i0 i1)
goal (= x0 x1)
obligation 0
premise 0
premise 1
sum 1 1 1 0 -1
clash 2 2
end
accepted

# 5 halves, rounded down
given (<= (* 2 i0) 5)
given (not (<= (* 1 i0) 2))
goal (= x0 x1)
obligation 0
premise 0
premise 1
sum 2 0 1
clash 2 1
end
accepted

# -5 halves, rounded down
given (<= (* 2 i0) -5)
given (not (<= (* 1 i0) -3))
goal (= x0 x1)
obligation 0
premise 0
premise 1
sum 2 0 1
clash 2 1
end
accepted

# a sum of a sum
given (<= (* 2 i0) 5)
given (<= 3 i0)
goal (= x0 x1)
obligation 0
premise 0
premise 1
sum 2 0 1
sum 1 2 1 1 1
clash 3 3
end
accepted

# a sum of no facts
given (not (<= 0 0))
goal (= x0 x1)
obligation 0
premise 0
sum 1
clash 1 0
end
accepted

# the negation of `<=`
given (not (<= i0 i1))
given (not (<= (+ (* 1 i1) (* -1 i0)) -1))
goal (= x0 x1)
obligation 0
premise 0
premise 1
sum 1 0 1
clash 2 1
end
accepted

# products with a number, on either side, and of two terms
given (<= (+ (* i0 3) (* i0 i1)) 5)
given (<= 6 (+ (* 3 i0) (* i0 i1)))
goal (= x0 x1)
obligation 0
premise 0
premise 1
sum 1 0 1 1 1
clash 2 2
end
accepted

# terms stand in the order of their first use, without those that fall out
given (<= (+ i1 i0) 4)
given (<= i2 i1)
given (not (<= (+ (* 1 i0) (* 1 i2)) 4))
goal (= x0 x1)
obligation 0
premise 0
premise 1
premise 2
sum 1 0 1 1 1
clash 3 2
end
accepted

# a difference of a difference, twice
given (<= (* 2 (- i0 (- i1 i2))) 0)
given (not (<= (+ (+ (* 1 i0) (* -1 i1)) (* 1 i2)) 0))
goal (= x0 x1)
obligation 0
premise 0
premise 1
sum 2 0 1
clash 2 1
end
accepted
";

/// Derivations with a line that is no step. The first such line is named, counted from the one after `obligation`.
pub const REFUSED: &str = "
# a read of another field isn't the new value
goal (= (field (set s0 x0 f2 x1) x0 f4) x1)
obligation 0
denied
rule read 0 (set s0 x0 f2 x1) x0 4
chain (field (set s0 x0 f2 x1) x0 f4) x1 1
clash 2 0
end
refused 3

# nor is a read of another object, where they may differ
goal (= (field (set s0 x0 f0 5) x1 f0) 5)
obligation 0
denied
rule read 0 (set s0 x0 f0 5) x1 0
part 1 0
chain (field (set s0 x0 f0 5) x1 f0) 5 2
clash 3 0
end
refused 4

# a sort that doesn't fit the rule
goal (= x0 x0)
obligation 0
rule read 2 (rdy s0 x0) i0
denied
clash 1 1
end
refused 1

# a read of a field that no class has
goal (= x0 x0)
obligation 0
rule read 0 (rdy s0 x0) x0 6
denied
clash 1 1
end
refused 1

# an object that isn't known to be packed has no invariant
given (good s0)
given (alloc s0 x0)
goal (<= 0 (field s0 x0 f0))
obligation 0
premise 0
premise 1
denied
good g1 0 x0 c4
split 3 3
case
clash 1 4
case
clash 4 2
case
clash 4 2
end
refused 9

# nor has one at the level above
given (good s0)
given (alloc s0 x0)
given (= (inv s0 x0) c0)
goal (<= 0 (field s0 x0 f0))
obligation 0
premise 0
premise 1
premise 2
denied
good g1 0 x0 c4
split 4 3
case
clash 1 5
case
clash 2 5
case
part 5 0
part 6 1
clash 7 3
end
refused 10

# an invariant of the class above isn't one of the class
given (good s0)
given (alloc s0 x0)
given (sub (inv s0 x0) c6)
goal (<= 0 (field s0 x0 f0))
obligation 0
premise 0
premise 1
premise 2
denied
good g1 0 x0 c6
split 4 3
case
clash 1 5
case
clash 2 5
case
part 5 0
clash 6 3
end
refused 12

# no store is known to be good
given (good s0)
given (alloc s0 x0)
goal (= x0 x0)
obligation 0
premise 1
good g1 0 x0 c4
denied
clash 2 2
end
refused 2

# an object without a class
given (good s0)
goal (= x0 x0)
obligation 0
premise 0
good g1 0 x0
denied
clash 2 2
end
refused 2

# an object and two classes
given (good s0)
goal (= x0 x0)
obligation 0
premise 0
good g1 0 x0 c4 c4
denied
clash 2 2
end
refused 2

# a class that isn't a name
given (good s0)
goal (= x0 x0)
obligation 0
premise 0
good g1 0 x0 (type x0)
denied
clash 2 2
end
refused 2

# a number for an object
given (good s0)
goal (= x0 x0)
obligation 0
premise 0
good g1 0 i0 c4
denied
clash 2 2
end
refused 2

# one equality for two
given (= x0 x1)
goal (= (pair x0 x2) (pair x1 x3))
obligation 0
premise 0
denied
cong (pair x0 x2) (pair x1 x3) 0
clash 2 1
end
refused 3

# no equality
given (= x0 x1)
goal (= (type x0) (type x1))
obligation 0
premise 0
denied
cong (type x0) (type x1)
clash 2 1
end
refused 3

# one equality too many
given (= x0 x1)
goal (= (type x0) (type x1))
obligation 0
premise 0
denied
cong (type x0) (type x1) 0 0
clash 2 1
end
refused 3

# equalities in another order
given (= x0 x1)
given (= x2 x3)
goal (= (pair x0 x2) (pair x1 x3))
obligation 0
premise 0
premise 1
denied
cong (pair x0 x2) (pair x1 x3) 1 0
clash 3 2
end
refused 4

# two fields
given (= x0 x1)
goal (= (field s0 x0 f2) (field s0 x1 f4))
obligation 0
premise 0
denied
cong (field s0 x0 f2) (field s0 x1 f4) 0
clash 2 1
end
refused 3

# two functions
given (= x0 x1)
goal (= (inv s0 x0) (own s0 x1))
obligation 0
premise 0
denied
cong (inv s0 x0) (own s0 x1) 0
clash 2 1
end
refused 3

# no equality, but its negation
given (not (= x0 x1))
goal (= (type x0) (type x1))
obligation 0
premise 0
denied
cong (type x0) (type x1) 0
clash 2 1
end
refused 3

# an object for a number
given (forall int (= v0 3))
goal (= x0 x0)
obligation 0
premise 0
inst 0 x0
denied
clash 2 2
end
refused 2

# a number for an object
given (forall object (com s0 v0))
goal (= x0 x0)
obligation 0
premise 0
inst 0 i0
denied
clash 2 2
end
refused 2

# terms in another order
given (forall object int (= (elemi s0 v0 v1) 3))
goal (= x0 x0)
obligation 0
premise 0
inst 0 i0 x0
denied
clash 2 2
end
refused 2

# a term too few
given (forall object int (= (elemi s0 v0 v1) 3))
goal (= x0 x0)
obligation 0
premise 0
inst 0 x0
denied
clash 2 2
end
refused 2

# a term too many
given (forall int (= v0 3))
goal (= x0 x0)
obligation 0
premise 0
inst 0 i0 i1
denied
clash 2 2
end
refused 2

# a bound name
given (forall int (= v0 3))
goal (= x0 x0)
obligation 0
premise 0
inst 0 v0
denied
clash 2 2
end
refused 2

# a sum with an object
given (forall int (= v0 3))
goal (= x0 x0)
obligation 0
premise 0
inst 0 (+ i0 x0)
denied
clash 2 2
end
refused 2

# the body of an `exists`
given (exists int (= v0 3))
goal (= x0 x0)
obligation 0
premise 0
inst 0 i0
denied
clash 2 2
end
refused 2

# a constant of a premise that isn't known
given (= i5 3)
goal (= x0 x0)
obligation 0
denied
choose (exists int (= v0 4)) i5
clash 0 0
end
refused 2

# a constant of the goal
goal (= i5 i5)
obligation 0
choose (exists int (= v0 4)) i5
denied
clash 1 1
end
refused 1

# a constant of a known formula
goal (= x0 x0)
obligation 0
rule apart i5 i6
choose (exists int (= v0 4)) i6
denied
clash 2 2
end
refused 2

# a constant of the formula
goal (= x0 x0)
obligation 0
choose (exists int (= v0 i5)) i5
denied
clash 1 1
end
refused 1

# a constant deep in the formula
goal (= x0 x0)
obligation 0
choose (exists object (or (com s0 v0) (forall int (not (= (elemi (rdy s0 x5) v0 v1) 3))))) x5
denied
clash 1 1
end
refused 1

# the same constant twice
goal (= x0 x0)
obligation 0
choose (exists int int (not (= v0 v1))) i5 i5
denied
clash 1 1
end
refused 1

# a constant that was chosen
goal (= x0 x0)
obligation 0
choose (exists int (= v0 4)) i5
choose (exists int (= v0 6)) i5
denied
clash 2 2
end
refused 2

# a constant of another sort
goal (= x0 x0)
obligation 0
choose (exists int (= v0 4)) x5
denied
clash 1 1
end
refused 1

# a constant too few
goal (= x0 x0)
obligation 0
choose (exists int int (not (= v0 v1))) i5
denied
clash 1 1
end
refused 1

# a constant too many
goal (= x0 x0)
obligation 0
choose (exists int (= v0 4)) i5 i6
denied
clash 1 1
end
refused 1

# a number for a constant
goal (= x0 x0)
obligation 0
choose (exists int (= v0 4)) 7
denied
clash 1 1
end
refused 1

# a term for a constant
goal (= x0 x0)
obligation 0
choose (exists object (com s0 v0)) (type x5)
denied
clash 1 1
end
refused 1

# a choice for a `forall`
goal (= x0 x0)
obligation 0
choose (forall int (= v0 4)) i5
denied
clash 1 1
end
refused 1

# a choice for no well formed formula
goal (= x0 x0)
obligation 0
choose (exists int (= v0 x5)) i5
denied
clash 1 1
end
refused 1

# an owner of an object that isn't known to be allocated
given (good s0)
given (isgroup (own s0 x0))
goal (not (com s0 x0))
obligation 0
premise 0
premise 1
denied
good g3 0 1 x0
split 3 3
case
clash 1 4
case
clash 1 4
case
clash 2 4
end
refused 7

# the same with a case too few
given (good s0)
given (isgroup (own s0 x0))
goal (not (com s0 x0))
obligation 0
premise 0
premise 1
denied
good g3 0 1 x0
split 3 2
case
clash 1 4
case
clash 2 4
end
refused 5

# a chain over the instance, as if its premises were known
given (good s0)
given (sub (type x0) c4)
given (not (= (field s0 x0 f2) null))
goal (= (own s0 (field s0 x0 f2)) (pair x0 c4))
obligation 0
premise 0
premise 1
premise 2
denied
good g4 0 x0 2
chain (own s0 (field s0 x0 f2)) (pair x0 c4) 4
clash 5 3
end
refused 6

# a chain over the case of an object that isn't allocated
given (good s0)
given (sub (type x0) c4)
given (not (= (field s0 x0 f2) null))
goal (= (own s0 (field s0 x0 f2)) (pair x0 c4))
obligation 0
premise 0
premise 1
premise 2
denied
good g4 0 x0 2
split 4 4
case
chain (own s0 (field s0 x0 f2)) (pair x0 c4) 5
clash 6 3
case
clash 1 5
case
clash 5 2
case
clash 5 3
end
refused 8

# no `good`
given (alloc s0 x0)
goal (= x0 x0)
obligation 0
premise 0
good g2 0 x0
denied
clash 2 2
end
refused 2

# the negation of a `good`
given (not (good s0))
goal (= x0 x0)
obligation 0
premise 0
good g2 0 x0
denied
clash 2 2
end
refused 2

# a mark of a field without one
given (good s0)
goal (= x0 x0)
obligation 0
premise 0
good g4 0 x0 4
denied
clash 2 2
end
refused 2

# a class and one below it as unrelated
goal (= x0 x0)
obligation 0
rule class 2 x0 c4 c6
denied
clash 1 1
end
refused 1

# a class and one above it as unrelated
goal (= x0 x0)
obligation 0
rule class 2 x0 c6 c4
denied
clash 1 1
end
refused 1

# `object` and a class as unrelated
goal (= x0 x0)
obligation 0
rule class 2 x0 c0 c4
denied
clash 1 1
end
refused 1

# a class above `object`
goal (= x0 x0)
obligation 0
rule class 1 x0 c0
denied
clash 1 1
end
refused 1

# a case too few
goal (= x0 x0)
obligation 0
rule bool b0
denied
split 0 1
case
clash 1 1
end
refused 3

# a case too many
goal (= x0 x0)
obligation 0
rule bool b0
denied
split 0 3
case
clash 1 1
case
clash 1 1
case
clash 1 1
end
refused 3

# no case of two
goal (= x0 x1)
obligation 0
rule bool b0
split 0 0
end
refused 2

# the cases of an `and`
given (and (= 0 1) (= 1 2))
goal (= x0 x1)
obligation 0
premise 0
split 0 2
case
clash 1 1
case
clash 1 1
end
refused 2

# the cases of an atom
given (= 0 1)
goal (= x0 x1)
obligation 0
premise 0
split 0 1
case
clash 1 1
end
refused 2

# a part of an `or`
given (or (= 0 1))
goal (= x0 x1)
obligation 0
premise 0
part 0 0
clash 1 1
end
refused 2

# a part past the last
given (and (= 0 1))
goal (= x0 x1)
obligation 0
premise 0
part 0 1
clash 1 1
end
refused 2

# a cut of the negation of an atom
goal (= x0 x0)
obligation 0
denied
cut (not (= x0 x1))
case
clash 0 0
case
clash 0 0
end
refused 2

# a cut of an `and`
goal (= x0 x0)
obligation 0
denied
cut (and (= x0 x1))
case
clash 0 0
case
clash 0 0
end
refused 2

# a cut of no well formed formula
goal (= x0 x0)
obligation 0
denied
cut (= x0 i1)
case
clash 0 0
case
clash 0 0
end
refused 2

# a premise with two sorts
given (= x0 i0)
goal (= x0 x0)
obligation 0
premise 0
denied
clash 1 1
end
refused 1

# a premise with a name that isn't bound
given (= v0 v0)
goal (= x0 x0)
obligation 0
premise 0
denied
clash 1 1
end
refused 1

# a premise with a field that no class has
given (= (field s0 x0 f6) x0)
goal (= x0 x0)
obligation 0
premise 0
denied
clash 1 1
end
refused 1

# a goal with two sorts
given (= 0 1)
goal (<= i0 x0)
obligation 0
premise 0
denied
clash 0 0
end
refused 2

# equal literals
given (= 3 3)
goal (= x0 x1)
obligation 0
premise 0
clash 0 0
end
refused 2

# equal literals
given (= null null)
goal (= x0 x1)
obligation 0
premise 0
clash 0 0
end
refused 2

# equal literals
given (= true true)
goal (= x0 x1)
obligation 0
premise 0
clash 0 0
end
refused 2

# equal literals
given (= c4 c4)
goal (= x0 x1)
obligation 0
premise 0
clash 0 0
end
refused 2

# a clash of constants
given (= x0 x1)
goal (= x1 x2)
obligation 0
premise 0
clash 0 0
end
refused 2

# a clash of a number and a constant
given (= i0 3)
goal (= x0 x1)
obligation 0
premise 0
clash 0 0
end
refused 2

# different literals that differ
given (not (= 3 4))
goal (= x0 x1)
obligation 0
premise 0
clash 0 0
end
refused 2

# 0 at most 0
given (<= 0 0)
goal (= x0 x1)
obligation 0
premise 0
clash 0 0
end
refused 2

# a bound that isn't 0
given (<= 1 0)
goal (= x0 x1)
obligation 0
premise 0
clash 0 0
end
refused 2

# 0 at most a constant
given (<= 0 i0)
goal (= x0 x1)
obligation 0
premise 0
clash 0 0
end
refused 2

# a false literal and another
given (= 3 4)
given (= 3 4)
goal (= x0 x1)
obligation 0
premise 0
premise 1
clash 0 1
end
refused 3

# different atoms
given (com s0 x0)
given (not (com s0 x1))
goal (= x0 x1)
obligation 0
premise 0
premise 1
clash 0 1
end
refused 3

# the sides in another order
given (= x0 x1)
given (not (= x1 x0))
goal (= x2 x3)
obligation 0
premise 0
premise 1
clash 0 1
end
refused 3

# the same formula
given (com s0 x0)
given (com s0 x0)
goal (= x0 x1)
obligation 0
premise 0
premise 1
clash 0 1
end
refused 3

# an `and` and its negation
given (and (com s0 x0))
goal (and (com s0 x0))
obligation 0
premise 0
denied
clash 0 1
end
refused 3

# a `forall` and an `exists` of the same
given (forall object (com s0 v0))
given (exists object (com s0 v0))
goal (= x0 x1)
obligation 0
premise 0
premise 1
clash 0 1
end
refused 3

# quantified formulas of other sorts
given (forall object (com s0 x0))
given (exists int (not (com s0 x0)))
goal (= x0 x1)
obligation 0
premise 0
premise 1
clash 0 1
end
refused 3

# a chain that leads elsewhere
given (= x0 x1)
goal (= x0 x2)
obligation 0
premise 0
denied
chain x0 x2 0
clash 2 1
end
refused 3

# a chain in another order
given (= x0 x1)
given (= x1 x2)
goal (= x0 x2)
obligation 0
premise 0
premise 1
denied
chain x0 x2 1 0
clash 3 2
end
refused 4

# a chain without equalities
goal (= x0 x1)
obligation 0
denied
chain x0 x1
clash 1 0
end
refused 2

# a chain over no equality
given (<= i0 i1)
goal (= i0 i1)
obligation 0
premise 0
denied
chain i0 i1 0
clash 2 1
end
refused 3

# a chain over the negation of an equality
given (not (= x0 x1))
goal (= x0 x1)
obligation 0
premise 0
denied
chain x0 x1 0
clash 2 1
end
refused 3

# a swap without its equality
given (com s0 x0)
goal (com s0 x1)
obligation 0
premise 0
denied
swap 0 (com s0 x1)
clash 2 1
end
refused 3

# a swap with an equality too many
given (com s0 x0)
given (= x0 x1)
goal (com s0 x1)
obligation 0
premise 0
premise 1
denied
swap 0 (com s0 x1) 1 1
clash 3 2
end
refused 4

# a swap to the negation
given (com s0 x0)
given (= x0 x1)
goal (not (com s0 x1))
obligation 0
premise 0
premise 1
denied
swap 0 (not (com s0 x1)) 1
clash 3 2
end
refused 4

# a swap to another predicate
given (com s0 x0)
given (= x0 x1)
goal (ready s0 x1)
obligation 0
premise 0
premise 1
denied
swap 0 (ready s0 x1) 1
clash 3 2
end
refused 4

# a swap in no literal
given (and (com s0 x0))
given (= x0 x1)
goal (= x0 x1)
obligation 0
premise 0
premise 1
denied
swap 0 (and (com s0 x1)) 1
clash 3 3
end
refused 4

# a premise past the last
given (= 0 1)
goal (= x0 x1)
obligation 0
premise 1
clash 0 0
end
refused 1

# a premise where there is none
goal (= x0 x1)
obligation 0
premise 0
clash 0 0
end
refused 1

# a known formula that isn't there
given (com s0 x0)
goal (= x0 x0)
obligation 0
premise 0
part 1 0
denied
clash 2 2
end
refused 2

# a known formula that isn't there
given (com s0 x0)
goal (= x0 x0)
obligation 0
premise 0
inst 1 x0
denied
clash 2 2
end
refused 2

# a known formula that isn't there
given (com s0 x0)
goal (= x0 x0)
obligation 0
premise 0
good g2 1 x0
denied
clash 2 2
end
refused 2

# a known formula that isn't there
given (com s0 x0)
goal (= x0 x0)
obligation 0
premise 0
chain x0 x1 1
denied
clash 2 2
end
refused 2

# a known formula that isn't there
given (com s0 x0)
goal (= x0 x0)
obligation 0
premise 0
cong (type x0) (type x1) 1
denied
clash 2 2
end
refused 2

# a known formula that isn't there
given (com s0 x0)
goal (= x0 x0)
obligation 0
premise 0
swap 1 (com s0 x1)
denied
clash 2 2
end
refused 2

# a known formula that isn't there
given (com s0 x0)
goal (= x0 x0)
obligation 0
premise 0
swap 0 (com s0 x1) 1
denied
clash 2 2
end
refused 2

# a known formula that isn't there
given (= 0 1)
goal (= x0 x1)
obligation 0
premise 0
split 1 0
end
refused 2

# a known formula that isn't there
given (= 0 1)
goal (= x0 x1)
obligation 0
premise 0
clash 0 1
end
refused 2

# a known formula that isn't there
given (= 0 1)
goal (= x0 x1)
obligation 0
premise 0
clash 1 0
end
refused 2

# a known formula that isn't there
given (= 0 1)
goal (= x0 x1)
obligation 0
premise 0
clash 1 1
end
refused 2

# a known formula of a case that is closed
given (or (= 0 1) (= 1 2))
goal (= x0 x0)
obligation 0
premise 0
split 0 2
case
denied
clash 1 1
case
clash 2 2
end
refused 7

# two faults
given (com s0 x0)
goal (com s0 x1)
obligation 0
premise 0
part 0 0
denied
clash 1 1
end
refused 2

# two faults, of which the second is a premise
given (= 3 3)
goal (= x0 x1)
obligation 0
premise 0
rule bool i0
premise 1
clash 0 0
end
refused 2

# two faults in two cases
given (or (= 3 3) (= 3 3))
goal (= x0 x1)
obligation 0
premise 0
split 0 2
case
clash 1 1
case
clash 1 1
end
refused 4

# a weight below 0 on an inequality
given (<= i0 3)
goal (= x0 x1)
obligation 0
premise 0
sum 1 0 -1
clash 1 1
end
refused 2

# a weight of 0 on an inequality
given (<= i0 3)
goal (= x0 x1)
obligation 0
premise 0
sum 1 0 0
clash 1 1
end
refused 2

# a weight of 0 on an equality
given (= i0 3)
goal (= x0 x1)
obligation 0
premise 0
sum 1 0 0
clash 1 1
end
refused 2

# 5 halves, rounded up
given (<= (* 2 i0) 5)
given (not (<= (* 1 i0) 3))
goal (= x0 x1)
obligation 0
premise 0
premise 1
sum 2 0 1
clash 2 1
end
refused 4

# a divisor that doesn't divide a coefficient
given (<= (* 3 i0) 5)
goal (= x0 x1)
obligation 0
premise 0
sum 2 0 1
clash 1 1
end
refused 2

# a divisor of 0
given (<= i0 3)
goal (= x0 x1)
obligation 0
premise 0
sum 0 0 1
clash 1 1
end
refused 2

# a divisor below 0
given (<= i0 3)
goal (= x0 x1)
obligation 0
premise 0
sum -1 0 1
clash 1 1
end
refused 2

# a coefficient past 128 bits
given (<= (* 170141183460469231731687303715884105727 i0) 0)
goal (= x0 x1)
obligation 0
premise 0
sum 1 0 2
clash 1 1
end
refused 2

# a number past 128 bits
given (<= i0 170141183460469231731687303715884105727)
goal (= x0 x1)
obligation 0
premise 0
sum 1 0 2
clash 1 1
end
refused 2

# a fact that is no inequality
given (com s0 x0)
goal (= x0 x1)
obligation 0
premise 0
sum 1 0 1
clash 1 1
end
refused 2

# an equality of objects
given (= x0 x0)
goal (= x0 x1)
obligation 0
premise 0
sum 1 0 1
clash 1 1
end
refused 2

# the negation of an equality
given (not (= i0 3))
goal (= x0 x1)
obligation 0
premise 0
sum 1 0 1
clash 1 1
end
refused 2

# a sum of a fact that isn't known
given (<= i0 3)
goal (= x0 x1)
obligation 0
premise 0
sum 1 1 1
clash 1 1
end
refused 2

# 0 is at most 0
given (<= i0 3)
goal (= x0 x1)
obligation 0
premise 0
sum 1
clash 1 1
end
refused 3
";

/// Lines that are no derivation: a case is left, or a line stands where it has no place.
pub const UNFINISHED: &str = "
# no line
goal (= x0 x0)
obligation 0
end
unfinished

# the case is left open
goal (= x0 x0)
obligation 0
denied
end
unfinished

# a case that waits
given (or (= 0 1) (= 1 2))
goal (= x0 x0)
obligation 0
premise 0
split 0 2
case
clash 1 1
end
unfinished

# a case that is open
given (or (= 0 1) (= 1 2))
goal (= x0 x0)
obligation 0
premise 0
split 0 2
case
clash 1 1
case
end
unfinished

# a case more than there are
goal (= x0 x0)
obligation 0
denied
clash 0 0
case
clash 0 0
end
unfinished

# a `case` where one is open
goal (= x0 x0)
obligation 0
denied
case
clash 0 0
end
unfinished

# a line behind the end
goal (= x0 x0)
obligation 0
denied
clash 0 0
denied
end
unfinished

# a line between cases
given (or (= 0 1) (= 1 2))
goal (= x0 x0)
obligation 0
premise 0
split 0 2
denied
case
clash 1 1
case
clash 1 1
end
unfinished

# the first 0 lines of a derivation of 25
given (or (= b0 true) (= b1 true))
given (or (= b0 true) (not (= b1 true)))
given (or (not (= b0 true)) (= b1 true))
goal (and (= b0 true) (= b1 true))
obligation 0
end
unfinished

# the first 1 lines of a derivation of 25
given (or (= b0 true) (= b1 true))
given (or (= b0 true) (not (= b1 true)))
given (or (not (= b0 true)) (= b1 true))
goal (and (= b0 true) (= b1 true))
obligation 0
premise 0
end
unfinished

# the first 2 lines of a derivation of 25
given (or (= b0 true) (= b1 true))
given (or (= b0 true) (not (= b1 true)))
given (or (not (= b0 true)) (= b1 true))
goal (and (= b0 true) (= b1 true))
obligation 0
premise 0
premise 1
end
unfinished

# the first 3 lines of a derivation of 25
given (or (= b0 true) (= b1 true))
given (or (= b0 true) (not (= b1 true)))
given (or (not (= b0 true)) (= b1 true))
goal (and (= b0 true) (= b1 true))
obligation 0
premise 0
premise 1
premise 2
end
unfinished

# the first 4 lines of a derivation of 25
given (or (= b0 true) (= b1 true))
given (or (= b0 true) (not (= b1 true)))
given (or (not (= b0 true)) (= b1 true))
goal (and (= b0 true) (= b1 true))
obligation 0
premise 0
premise 1
premise 2
denied
end
unfinished

# the first 5 lines of a derivation of 25
given (or (= b0 true) (= b1 true))
given (or (= b0 true) (not (= b1 true)))
given (or (not (= b0 true)) (= b1 true))
goal (and (= b0 true) (= b1 true))
obligation 0
premise 0
premise 1
premise 2
denied
split 0 2
end
unfinished

# the first 6 lines of a derivation of 25
given (or (= b0 true) (= b1 true))
given (or (= b0 true) (not (= b1 true)))
given (or (not (= b0 true)) (= b1 true))
goal (and (= b0 true) (= b1 true))
obligation 0
premise 0
premise 1
premise 2
denied
split 0 2
case
end
unfinished

# the first 7 lines of a derivation of 25
given (or (= b0 true) (= b1 true))
given (or (= b0 true) (not (= b1 true)))
given (or (not (= b0 true)) (= b1 true))
goal (and (= b0 true) (= b1 true))
obligation 0
premise 0
premise 1
premise 2
denied
split 0 2
case
split 2 2
end
unfinished

# the first 8 lines of a derivation of 25
given (or (= b0 true) (= b1 true))
given (or (= b0 true) (not (= b1 true)))
given (or (not (= b0 true)) (= b1 true))
goal (and (= b0 true) (= b1 true))
obligation 0
premise 0
premise 1
premise 2
denied
split 0 2
case
split 2 2
case
end
unfinished

# the first 9 lines of a derivation of 25
given (or (= b0 true) (= b1 true))
given (or (= b0 true) (not (= b1 true)))
given (or (not (= b0 true)) (= b1 true))
goal (and (= b0 true) (= b1 true))
obligation 0
premise 0
premise 1
premise 2
denied
split 0 2
case
split 2 2
case
clash 4 5
end
unfinished

# the first 10 lines of a derivation of 25
given (or (= b0 true) (= b1 true))
given (or (= b0 true) (not (= b1 true)))
given (or (not (= b0 true)) (= b1 true))
goal (and (= b0 true) (= b1 true))
obligation 0
premise 0
premise 1
premise 2
denied
split 0 2
case
split 2 2
case
clash 4 5
case
end
unfinished

# the first 11 lines of a derivation of 25
given (or (= b0 true) (= b1 true))
given (or (= b0 true) (not (= b1 true)))
given (or (not (= b0 true)) (= b1 true))
goal (and (= b0 true) (= b1 true))
obligation 0
premise 0
premise 1
premise 2
denied
split 0 2
case
split 2 2
case
clash 4 5
case
split 3 2
end
unfinished

# the first 12 lines of a derivation of 25
given (or (= b0 true) (= b1 true))
given (or (= b0 true) (not (= b1 true)))
given (or (not (= b0 true)) (= b1 true))
goal (and (= b0 true) (= b1 true))
obligation 0
premise 0
premise 1
premise 2
denied
split 0 2
case
split 2 2
case
clash 4 5
case
split 3 2
case
end
unfinished

# the first 13 lines of a derivation of 25
given (or (= b0 true) (= b1 true))
given (or (= b0 true) (not (= b1 true)))
given (or (not (= b0 true)) (= b1 true))
goal (and (= b0 true) (= b1 true))
obligation 0
premise 0
premise 1
premise 2
denied
split 0 2
case
split 2 2
case
clash 4 5
case
split 3 2
case
clash 4 6
end
unfinished

# the first 14 lines of a derivation of 25
given (or (= b0 true) (= b1 true))
given (or (= b0 true) (not (= b1 true)))
given (or (not (= b0 true)) (= b1 true))
goal (and (= b0 true) (= b1 true))
obligation 0
premise 0
premise 1
premise 2
denied
split 0 2
case
split 2 2
case
clash 4 5
case
split 3 2
case
clash 4 6
case
end
unfinished

# the first 15 lines of a derivation of 25
given (or (= b0 true) (= b1 true))
given (or (= b0 true) (not (= b1 true)))
given (or (not (= b0 true)) (= b1 true))
goal (and (= b0 true) (= b1 true))
obligation 0
premise 0
premise 1
premise 2
denied
split 0 2
case
split 2 2
case
clash 4 5
case
split 3 2
case
clash 4 6
case
clash 5 6
end
unfinished

# the first 16 lines of a derivation of 25
given (or (= b0 true) (= b1 true))
given (or (= b0 true) (not (= b1 true)))
given (or (not (= b0 true)) (= b1 true))
goal (and (= b0 true) (= b1 true))
obligation 0
premise 0
premise 1
premise 2
denied
split 0 2
case
split 2 2
case
clash 4 5
case
split 3 2
case
clash 4 6
case
clash 5 6
case
end
unfinished

# the first 17 lines of a derivation of 25
given (or (= b0 true) (= b1 true))
given (or (= b0 true) (not (= b1 true)))
given (or (not (= b0 true)) (= b1 true))
goal (and (= b0 true) (= b1 true))
obligation 0
premise 0
premise 1
premise 2
denied
split 0 2
case
split 2 2
case
clash 4 5
case
split 3 2
case
clash 4 6
case
clash 5 6
case
split 1 2
end
unfinished

# the first 18 lines of a derivation of 25
given (or (= b0 true) (= b1 true))
given (or (= b0 true) (not (= b1 true)))
given (or (not (= b0 true)) (= b1 true))
goal (and (= b0 true) (= b1 true))
obligation 0
premise 0
premise 1
premise 2
denied
split 0 2
case
split 2 2
case
clash 4 5
case
split 3 2
case
clash 4 6
case
clash 5 6
case
split 1 2
case
end
unfinished

# the first 19 lines of a derivation of 25
given (or (= b0 true) (= b1 true))
given (or (= b0 true) (not (= b1 true)))
given (or (not (= b0 true)) (= b1 true))
goal (and (= b0 true) (= b1 true))
obligation 0
premise 0
premise 1
premise 2
denied
split 0 2
case
split 2 2
case
clash 4 5
case
split 3 2
case
clash 4 6
case
clash 5 6
case
split 1 2
case
split 3 2
end
unfinished

# the first 20 lines of a derivation of 25
given (or (= b0 true) (= b1 true))
given (or (= b0 true) (not (= b1 true)))
given (or (not (= b0 true)) (= b1 true))
goal (and (= b0 true) (= b1 true))
obligation 0
premise 0
premise 1
premise 2
denied
split 0 2
case
split 2 2
case
clash 4 5
case
split 3 2
case
clash 4 6
case
clash 5 6
case
split 1 2
case
split 3 2
case
end
unfinished

# the first 21 lines of a derivation of 25
given (or (= b0 true) (= b1 true))
given (or (= b0 true) (not (= b1 true)))
given (or (not (= b0 true)) (= b1 true))
goal (and (= b0 true) (= b1 true))
obligation 0
premise 0
premise 1
premise 2
denied
split 0 2
case
split 2 2
case
clash 4 5
case
split 3 2
case
clash 4 6
case
clash 5 6
case
split 1 2
case
split 3 2
case
clash 5 6
end
unfinished

# the first 22 lines of a derivation of 25
given (or (= b0 true) (= b1 true))
given (or (= b0 true) (not (= b1 true)))
given (or (not (= b0 true)) (= b1 true))
goal (and (= b0 true) (= b1 true))
obligation 0
premise 0
premise 1
premise 2
denied
split 0 2
case
split 2 2
case
clash 4 5
case
split 3 2
case
clash 4 6
case
clash 5 6
case
split 1 2
case
split 3 2
case
clash 5 6
case
end
unfinished

# the first 23 lines of a derivation of 25
given (or (= b0 true) (= b1 true))
given (or (= b0 true) (not (= b1 true)))
given (or (not (= b0 true)) (= b1 true))
goal (and (= b0 true) (= b1 true))
obligation 0
premise 0
premise 1
premise 2
denied
split 0 2
case
split 2 2
case
clash 4 5
case
split 3 2
case
clash 4 6
case
clash 5 6
case
split 1 2
case
split 3 2
case
clash 5 6
case
clash 4 6
end
unfinished

# the first 24 lines of a derivation of 25
given (or (= b0 true) (= b1 true))
given (or (= b0 true) (not (= b1 true)))
given (or (not (= b0 true)) (= b1 true))
goal (and (= b0 true) (= b1 true))
obligation 0
premise 0
premise 1
premise 2
denied
split 0 2
case
split 2 2
case
clash 4 5
case
split 3 2
case
clash 4 6
case
clash 5 6
case
split 1 2
case
split 3 2
case
clash 5 6
case
clash 4 6
case
end
unfinished
";
