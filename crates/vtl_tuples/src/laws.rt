// Laws of the definitions.
ghost use Rattle.std.specs.Prelude.{◌≡◌, true, Bool, List, [], ◌∷◌, ◌++◌, Option, Some, map};
ghost use Rattle.std.specs.List.{AllByRecursion, flat_map, fold, list_any};
ghost use Rattle.vtl_lists.specs.Apart.{all_apart};
ghost use Rattle.vtl_lists.specs.Perm.{Perm};
ghost use Rattle.vtl_tuples.specs.Keys.{TellsApart, and_once, each_once, filled, filled_with};
ghost use Rattle.vtl_tuples.specs.Leads.{Finds};
ghost use Rattle.vtl_tuples.specs.Tuples.{combinations, crossed_with, led, led_or_none, led_with, matched_with, matching};

/// The tuples of all lists at once are made by taking one list after the other: those of items that agree, those of
/// all items, those of what the first list's items find, and those of the items of each key.
pub fn tuples_grow<X, O, K>()
    ensures matching { (agree : X → X → Bool) (xss : List (List X)) → matching agree xss ≡ fold (matched_with agree) ([] ∷ []) xss }
    ensures combinations { (xss : List (List X)) → combinations xss ≡ fold crossed_with ([] ∷ []) xss }
    ensures led { (find : X → O → Option X) (lead : O) (os : List O) (o : O) (xs : List X) → AllByRecursion (λ x. find x lead ≡ Some x) xs → led_or_none find (lead ∷ os ++ o ∷ []) xs ≡ led_with find (led_or_none find (lead ∷ os) xs) o }
    ensures filled { (same : K → K → Bool) (key : X → K) (xss : List (List X)) (xs : List X) → TellsApart same → all_apart same (map key xs) ≡ true → filled same key (xss ++ xs ∷ []) ≡ filled_with same key xss (filled same key xss) xs }
{}

/// The lead may stand anywhere among the lists. The tuples of items that agree are, up to order, those that are taken
/// for each item of any one list; and where that list's items tell which other items agree, and each finds at most one
/// in every other list, they are what its items find.
pub fn lead_stands_anywhere<X, O>()
    ensures each { (agree : X → X → Bool) (pre : List (List X)) (lead : List X) (post : List (List X)) → Perm (matching agree (pre ++ lead ∷ post)) (flat_map (λ x. matching agree (pre ++ (x ∷ []) ∷ post)) lead) }
    ensures finds { (of : X → Bool) (agree : X → X → Bool) (items : O → List X) (find : X → O → Option X) (pre : List O) (lead : O) (post : List O) → AllByRecursion (λ o. AllByRecursion (λ x. of x ≡ true) (items o)) pre → AllByRecursion (λ o. AllByRecursion (λ x. of x ≡ true) (items o)) post → AllByRecursion (Finds (λ x. of x ≡ true) agree items find pre lead post) (items lead) → Perm (matching agree (map items (pre ++ lead ∷ post))) (led find (pre ++ lead ∷ post) (items lead)) }
{}

/// The keys of a list, each once: no two are the same, each key of the list is among them and no other, they are the
/// list where no two of its keys are the same, and those of one list behind another are its new ones, in order.
pub fn keys_come_once<K>()
    ensures apart { (same : K → K → Bool) (ks : List K) → all_apart same (each_once same ks) ≡ true }
    ensures all { (same : K → K → Bool) (ks : List K) (k : K) → TellsApart same → list_any (λ j. same j k) (each_once same ks) ≡ list_any (λ j. same j k) ks }
    ensures already { (same : K → K → Bool) (ks : List K) → all_apart same ks ≡ true → each_once same ks ≡ ks }
    ensures more { (same : K → K → Bool) (ks js : List K) → TellsApart same → each_once same (ks ++ js) ≡ fold (and_once same) (each_once same ks) js }
{}
