//! Facts on lists, for any items: lists that differ in order alone, the sorted list, lists without repeats, a value
//! for each item, runs of items that pass a test; and names for lists of numbers.
//!
//! Cells, data sets, tables and both languages cite them, so each is said and proved once, below all of them.
//! `Perm` is a relation of its own, since a proof can follow it case by case; that it is std's permutation is a law
//! here. `>>=`, which runs one step after another where either may give nothing or fail, stands here too.
//! It knows no type of the program, and runs nothing.
//! Begin with specs/Perm.antt and specs/Sorting.antt.
#![tactic(auto)]

ghost use Rattle.std.specs.Prelude.{◌≡◌, ◌≤◌, ◌+◌, ◌^◌, ℕ, suc, List, length, map, IsPermutation, Bool, true};
ghost use Rattle.std.specs.List.{AllByRecursion};
ghost use Rattle.vtl_lists.specs.Balanced.{balanced, gathered};
ghost use Rattle.vtl_lists.specs.Perm.{Perm};
ghost use Rattle.vtl_lists.specs.Sorting.{IsOrder, Rises, sorted_by};

/// The relation between lists with the same items in any order is the one of std's sorts, for items of any type.
pub fn perm_is_permutation<T>()
    ensures there { (xs ys : List T) → Perm xs ys → IsPermutation xs ys }
    ensures back { (xs ys : List T) → IsPermutation xs ys → Perm xs ys }
{}

/// A list of items of any type that has an order has one sorted form, whatever its own order: it rises, and has the
/// same items.
pub fn sorted_is_one<T>()
    ensures same { (le : T → T → Bool) (xs ys : List T) → IsOrder le → Perm xs ys → sorted_by le xs ≡ sorted_by le ys }
    ensures items { (le : T → T → Bool) (xs : List T) → IsOrder le → Perm (sorted_by le xs) xs }
    ensures rises { (le : T → T → Bool) (xs : List T) → IsOrder le → Rises le (sorted_by le xs) }
{}

/// Items that are joined two by two are joined: what joining keeps holds of the whole, another form of the items is
/// joined likewise, and where it does not matter how items are grouped the whole is what they are one behind the other.
/// It is one deeper than the deepest item for each doubling of their number, at most.
pub fn balanced_is_shallow<T>()
    ensures kept { (f : T → T → T) (p : T → Bool) (d : T) (xs : List T) → ((x y : T) → p x ≡ true → p y ≡ true → p (f x y) ≡ true) → p d ≡ true → AllByRecursion (λ x. p x ≡ true) xs → p (balanced f d xs) ≡ true }
    ensures mapped { (f : T → T → T) (g : ℕ → ℕ → ℕ) (h : T → ℕ) (d : T) (xs : List T) → ((x y : T) → h (f x y) ≡ g (h x) (h y)) → h (balanced f d xs) ≡ balanced g (h d) (map h xs) }
    ensures gathered { (f : T → T → T) (u : T) (xs : List T) → ((x y z : T) → f (f x y) z ≡ f x (f y z)) → ((x : T) → f x u ≡ x) → balanced f u xs ≡ gathered f u xs }
    ensures depth { (f : T → T → T) (depth : T → ℕ) (k m : ℕ) (d : T) (xs : List T) → ((n : ℕ) (x y : T) → depth x ≤ n → depth y ≤ n → depth (f x y) ≤ suc n) → length xs ≤ 2 ^ k → depth d ≤ m → AllByRecursion (λ x. depth x ≤ m) xs → depth (balanced f d xs) ≤ m + k }
{}
