//! What the best info is for any preference, and what the definitions say of small groups.
ghost use Rattle.std.specs.Prelude.{◌≡◌, ◌↔◌, ◌<◌, ◌≤◌, List, [], ◌∷◌, ◌++◌, Option, Some, None, Bool, false, Contains};
ghost use Rattle.pgp_ids.specs.Member.{is_same_member};
ghost use Rattle.pgp_ids.specs.declared.member.Member.{Member};
ghost use Rattle.pgp_ids.specs.declared.report.Info.{Info};
ghost use Rattle.pgp_info.specs.Preference.{newest_first, oldest_first, IsPreference};
ghost use Rattle.pgp_info.specs.Best.{HasDistinctMembers, last_start, candidates, best_info, IsBest};
ghost use Rattle.pgp_info.specs.Heard.{without, with_info, with_infos, last_of_each_member};
ghost use Rattle.pgp_info.specs.Lead.{best_beside};
ghost use Rattle.pgp_info.specs.Examples.{in_slot, at, info_up_to, fresh, device_0};

/// Both preferences are strict total orders over infos of distinct members, whoever leads.
#[tactic(auto, using(crate::specs::PreferenceLaws::newest_is_preference, crate::specs::PreferenceLaws::oldest_is_preference))]
pub fn preferences_are_strict_total_orders()
    ensures newest { (primary : Option Member) → IsPreference (newest_first primary) }
    ensures oldest { (primary : Option Member) → IsPreference (oldest_first primary) }
{}

/// By any preference the best info is the one candidate to which no other is preferred, and there is one wherever there
/// is a candidate.
pub fn best_info_is_the_unbeaten_candidate()
    ensures best { (better : Info → Info → Bool) (infos : List Info) (info : Info)
        → IsPreference better → HasDistinctMembers infos
        → (best_info better infos ≡ Some info) ↔ IsBest better infos info }
    ensures none { (better : Info → Info → Bool) (infos : List Info)
        → IsPreference better → HasDistinctMembers infos
        → (best_info better infos ≡ None) ↔ (candidates infos ≡ []) }
{}

/// The best info depends on which infos there are, and not on their order.
pub fn order_of_infos_is_free()
    ensures { (better : Info → Info → Bool) (a b : List Info)
        → IsPreference better → HasDistinctMembers a → HasDistinctMembers b
        → ((info : Info) → Contains a info ↔ Contains b info)
        → best_info better a ≡ best_info better b }
{}

/// The best info stays the best one while other members are dropped.
#[tactic(auto, using(crate::proofs::LeadLemmas::best_without))]
pub fn best_stays_while_others_go()
    ensures { (better : Info → Info → Bool) (infos : List Info) (best : Info) (member : Member)
        → IsPreference better → HasDistinctMembers infos
        → best_info better infos ≡ Some best → is_same_member best.member member ≡ false
        → best_info better (without member infos) ≡ Some best }
{}

/// One info more is compared with the best one alone; and where it tells of a later start than all others, only its own
/// copy may be followed.
#[tactic(auto, using(crate::proofs::LeadLemmas::beside_laws))]
pub fn best_beside_one_more()
    ensures known { (better : Info → Info → Bool) (infos : List Info) (info : Info)
        → IsPreference better → HasDistinctMembers (infos ++ info ∷ [])
        → last_start (info ∷ []) ≤ last_start infos
        → best_info better (infos ++ info ∷ []) ≡ best_beside better (last_start infos) info (best_info better infos) }
    ensures later { (better : Info → Info → Bool) (infos : List Info) (info : Info)
        → IsPreference better → HasDistinctMembers (infos ++ info ∷ [])
        → last_start infos < last_start (info ∷ [])
        → best_info better (infos ++ info ∷ []) ≡ best_beside better (last_start (info ∷ [])) info None }
{}

/// Infos of distinct members stay so, whichever info is put and whoever is dropped.
#[tactic(auto, using(crate::proofs::BestLemmas::distinct_laws))]
pub fn members_stay_distinct()
    ensures nobody { HasDistinctMembers [] }
    ensures put { (info : Info) (infos : List Info)
        → HasDistinctMembers infos → HasDistinctMembers (with_info info infos) }
    ensures drop { (member : Member) (infos : List Info)
        → HasDistinctMembers infos → HasDistinctMembers (without member infos) }
{}

/// Infos that are put in their order leave the last of each member.
#[tactic(auto, using(crate::proofs::PutLemmas::put_in_order))]
pub fn infos_put_in_their_order()
    ensures { (infos : List Info) → with_infos infos [] ≡ last_of_each_member infos }
{}

/// Of equal copies that of the acting primary is the best, and without it that of the least device.
pub fn equal_copies()
    ensures primary { let infos = fresh 0 ∷ fresh 1 ∷ fresh 2 ∷ [] in
        best_info (newest_first (Some (in_slot 2 0))) infos ≡ Some (fresh 2) }
    ensures none_leads { let infos = fresh 2 ∷ fresh 0 ∷ fresh 1 ∷ [] in
        best_info (newest_first None) infos ≡ Some (fresh 0) }
    ensures least { let infos = fresh 2 ∷ fresh 0 ∷ fresh 1 ∷ [] in
        best_info (newest_first device_0) infos ≡ Some (fresh 0) }
{}

/// A copy that isn't complete is never the best, even the acting primary's.
pub fn incomplete_copy()
    ensures next { let partial = record (fresh 0) { complete = false } in
        best_info (newest_first device_0) (partial ∷ fresh 1 ∷ fresh 2 ∷ []) ≡ Some (fresh 1) }
    ensures alone { let partial = record (fresh 0) { complete = false } in
        best_info (newest_first device_0) (partial ∷ []) ≡ None }
{}

/// While the acting primary's copy isn't complete another one is the best, and it is again once it tells as before.
pub fn copy_that_tells_again()
    ensures partial { let partial = record (fresh 0) { complete = false } in
        best_info (newest_first device_0) (with_info partial (fresh 0 ∷ fresh 1 ∷ fresh 2 ∷ [])) ≡ Some (fresh 1) }
    ensures as_before { let partial = record (fresh 0) { complete = false } in
        let infos = with_info partial (fresh 0 ∷ fresh 1 ∷ fresh 2 ∷ []) in
        best_info (newest_first device_0) (with_info (fresh 0) infos) ≡ Some (fresh 0) }
{}

/// The last start falls with the one info that told of it, and then a copy may be followed that was left behind.
pub fn start_that_falls()
    ensures none { best_info (newest_first device_0) (fresh 0 ∷ record (fresh 1) { history_les = 1 } ∷ []) ≡ None }
    ensures fallen { let told = record (fresh 1) { history_les = 1 } in
        best_info (newest_first device_0) (without told.member (fresh 0 ∷ told ∷ [])) ≡ Some (fresh 0) }
{}

/// An erasure pool follows the copy that lacks the last write, a replicated pool one that has it.
pub fn copies_that_differ_in_one_write()
    ensures erasure { let infos = info_up_to (at 1 2) (in_slot 0 0) ∷ info_up_to (at 1 1) (in_slot 1 1)
        ∷ info_up_to (at 1 2) (in_slot 2 2) ∷ [] in
        best_info (oldest_first device_0) infos ≡ Some (info_up_to (at 1 1) (in_slot 1 1)) }
    ensures replicated { let infos = info_up_to (at 1 1) (in_slot 0 0) ∷ info_up_to (at 1 2) (in_slot 1 0)
        ∷ info_up_to (at 1 2) (in_slot 2 0) ∷ [] in
        best_info (newest_first device_0) infos ≡ Some (info_up_to (at 1 2) (in_slot 1 0)) }
{}

/// A copy that served before the group did last is never the best, however new its last write; nor is any where only
/// the history tells of that time.
pub fn copy_from_before()
    ensures older { let served = record (fresh 1) { les = 4 } in
        let newer = record (info_up_to (at 3 9) (in_slot 0 0)) { les = 3 } in
        best_info (newest_first device_0) (newer ∷ served ∷ []) ≡ Some served }
    ensures none { best_info (newest_first device_0) (fresh 0 ∷ record (fresh 1) { history_les = 1 } ∷ []) ≡ None }
    ensures nobody { best_info (newest_first device_0) [] ≡ None }
{}
