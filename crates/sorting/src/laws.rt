// What the crate's words mean in std's words.
ghost use Rattle.std.specs.Prelude.{◌≡◌, ℕ, Bool, true, List, length, eqb};
ghost use Rattle.std.specs.List.{count_by, position_or_len, AllPairs};
ghost use Rattle.std.specs.List.Sorted.{IsPermutation, IsNonDecreasingBy, IsSortedByKey, IsStableByKey};
ghost use Rattle.std.specs.Ordering.{nat_cmp};
ghost use Rattle.sorting.specs.Numbers.{numbers, place_of, Same, IsOrder};
ghost use Rattle.sorting.specs.Sorting.{by_key, passing, of_key, EachPair, NotFalling};

/// An order of numbers is a permutation of the numbers below its length; permutations have the same elements; and a
/// number's place is its first position.
pub fn orders_are_permutations()
    ensures order { (xs : List ℕ) → IsOrder xs → IsPermutation (numbers 0 (length xs)) xs }
    ensures permutation { (xs : List ℕ) → IsPermutation (numbers 0 (length xs)) xs → IsOrder xs }
    ensures same { (xs ys : List ℕ) → IsPermutation xs ys → Same ys xs }
    ensures place { (xs : List ℕ) (c : ℕ) → place_of xs c ≡ position_or_len (λ n. eqb n c) xs }
{}

/// A list in the order of a key has the elements of the list, each as often, with keys that do not fall; those of one
/// key stand in the order that they had. It is the one list that a stable sort by the key gives.
pub fn sorted_lists<T>()
    ensures moved { (key : T → ℕ) (xs : List T) → IsPermutation xs (by_key key xs) }
    ensures sorted { (key : T → ℕ) (xs : List T) → IsNonDecreasingBy key (by_key key xs) }
    ensures stable { (key : T → ℕ) (n : ℕ) (xs : List T) → of_key key n (by_key key xs) ≡ of_key key n xs }
    ensures only { (key : T → ℕ) (xs ys : List T) → IsSortedByKey key nat_cmp ys
        → IsStableByKey key nat_cmp xs ys → ys ≡ by_key key xs }
{}

/// Words by recursion say what std's words say of all places of a list.
pub fn words_are_std<T>()
    ensures count { (p : T → Bool) (xs : List T) → passing p xs ≡ count_by p xs }
    ensures pairs { (r : T → T → Bool) (xs : List T) → EachPair (λ x y. r x y ≡ true) xs
        → AllPairs (λ x y. r x y ≡ true) xs }
    ensures each { (r : T → T → Bool) (xs : List T) → AllPairs (λ x y. r x y ≡ true) xs
        → EachPair (λ x y. r x y ≡ true) xs }
    ensures rises { (key : T → ℕ) (b : ℕ) (xs : List T) → NotFalling key b xs → IsNonDecreasingBy key xs }
    ensures not_falling { (key : T → ℕ) (xs : List T) → IsNonDecreasingBy key xs → NotFalling key 0 xs }
{}
