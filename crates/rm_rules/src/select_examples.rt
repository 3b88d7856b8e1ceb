//! Computed examples of what a SELECT means and of when it fits, each the contract of a function that does nothing. The
//! tables and SELECTs stand in `specs/SelectExamples.antt`.

ghost use Rattle.std.specs.Prelude.{◌≡◌, ◌^◌, ◌∷◌, [], Some, None, pos, true, false, codes, replicate};
ghost use Rattle.rm_base.specs.declared.value.Value.TheVariants.{Null, Words};
ghost use Rattle.rm_base.specs.declared.select.Item.TheVariants.{Column, CountAll, Count, Sum, Min, Max};
ghost use Rattle.rm_base.specs.declared.select.Op.TheVariants.{Equal, Unequal, AtMost, Greater};
ghost use Rattle.rm_rules.specs.Meaning.{meaning, answer_of, fitting};
ghost use Rattle.rm_rules.specs.Meaning.SelectOutcome.{Answer, SumOutOfRange};
ghost use Rattle.rm_rules.specs.AllFits.{all_fits};
ghost use Rattle.rm_rules.specs.SelectExamples.{int, few, others, texts, great, select_of, ordered_by};
ghost use Rattle.rm_rules.specs.SelectExamples.{columns_test, value_test, side_tests};

/// A comparison with Null is not true, of whatever kind it is.
pub fn comparisons()
    ensures unequal { meaning (select_of (Column 1 ∷ []) (value_test 0 Unequal (int 1) ∷ []) None) (few ∷ [])
        ≡ Answer [] }
    ensures at_most { meaning (select_of (Column 1 ∷ []) (value_test 1 AtMost (int 20) ∷ []) None) (few ∷ [])
        ≡ Answer ((int 10 ∷ []) ∷ (int 20 ∷ []) ∷ []) }
    ensures bytes { meaning (select_of (Column 1 ∷ []) (value_test 1 Greater (Words (codes "ab")) ∷ []) None) (texts ∷ [])
        ≡ Answer ((Words (codes "b") ∷ []) ∷ (Words (codes "y") ∷ []) ∷ []) }
{}

/// Each pair of rows whose keys are equal and not Null gives a row.
pub fn joined_rows()
    ensures { meaning (select_of (Column 1 ∷ Column 3 ∷ []) (columns_test 0 Equal 2 ∷ []) None) (few ∷ others ∷ [])
        ≡ Answer ((int 10 ∷ Null ∷ []) ∷ (int 10 ∷ int 5 ∷ []) ∷ (int 20 ∷ Null ∷ []) ∷ (int 20 ∷ int 5 ∷ []) ∷ []) }
{}

/// Null is a group of its own, and stands first. An aggregate of a column looks at the values that are not Null.
pub fn groups()
    ensures by_key { meaning (select_of
        (Column 0 ∷ CountAll ∷ Count 1 ∷ Sum 1 ∷ Min 1 ∷ Max 1 ∷ []) [] (Some (0 ∷ []))) (others ∷ [])
        ≡ Answer (
        (Null ∷ int 1 ∷ int 1 ∷ int 8 ∷ int 8 ∷ int 8 ∷ [])
        ∷ (int 1 ∷ int 2 ∷ int 1 ∷ int 5 ∷ int 5 ∷ int 5 ∷ [])
        ∷ (int 2 ∷ int 1 ∷ int 1 ∷ int 6 ∷ int 6 ∷ int 6 ∷ [])
        ∷ []) }
    ensures of_no_rows { meaning (select_of (CountAll ∷ Sum 1 ∷ []) (value_test 0 Greater (int 2) ∷ []) (Some [])) (few ∷ [])
        ≡ Answer ((int 0 ∷ Null ∷ []) ∷ []) }
{}

/// What ORDER BY leaves open is ordered by all columns, ascending, also behind DESC. LIMIT takes the first rows.
pub fn orders()
    ensures falling { meaning (ordered_by 0 true None (select_of (Column 0 ∷ Column 1 ∷ []) [] None)) (texts ∷ [])
        ≡ Answer (
        (int 2 ∷ Words (codes "ab") ∷ [])
        ∷ (int 2 ∷ Words (codes "b") ∷ [])
        ∷ (int 1 ∷ Null ∷ [])
        ∷ (Null ∷ Words (codes "y") ∷ [])
        ∷ []) }
    ensures limited { meaning (ordered_by 1 false (Some 2) (select_of (Column 0 ∷ Column 1 ∷ []) [] None)) (texts ∷ [])
        ≡ Answer ((int 1 ∷ Null ∷ []) ∷ (int 2 ∷ Words (codes "ab") ∷ []) ∷ []) }
{}

/// The least output column with a sum outside 64 bits is told, and the first group's such sum, whatever LIMIT says.
pub fn sums_out_of_range()
    ensures { meaning (ordered_by 0 true (Some 0) (select_of (Column 0 ∷ Sum 0 ∷ Sum 1 ∷ []) [] (Some (0 ∷ [])))) (great ∷ [])
        ≡ SumOutOfRange 3 (pos (2 ^ 63)) }
{}

/// An answer that is too large tells how many first rows there is room for, up to the last byte.
pub fn first_rows()
    ensures all { fitting 64 ((int 1 ∷ int 2 ∷ []) ∷ (int 3 ∷ int 4 ∷ []) ∷ []) ≡ 2 }
    ensures but_one { fitting 63 ((int 1 ∷ int 2 ∷ []) ∷ (int 3 ∷ int 4 ∷ []) ∷ (Null ∷ []) ∷ []) ≡ 1 }
{}

/// Each stage's output fits up to the last byte: the rows measure 32, 32 and 25 bytes.
pub fn outputs_that_fit()
    ensures fits { all_fits 356 (select_of (Column 0 ∷ []) [] None) (few ∷ []) ≡ true }
    ensures above { all_fits 355 (select_of (Column 0 ∷ []) [] None) (few ∷ []) ≡ false }
{}

/// So does a side: of the further table two rows pass the comparison on it, of 32 and 25 bytes, though none is joined.
pub fn sides_that_fit()
    ensures fits { all_fits 228 (select_of (Column 0 ∷ []) side_tests None) (few ∷ others ∷ []) ≡ true }
    ensures above { all_fits 227 (select_of (Column 0 ∷ []) side_tests None) (few ∷ others ∷ []) ≡ false }
{}

/// So does the table of groups: three keys, of 17, 24 and 24 bytes, each with 16 for the COUNT and 1,040 for the MIN.
pub fn groups_that_fit()
    ensures fits { all_fits 12932 (select_of (Column 0 ∷ CountAll ∷ Min 1 ∷ []) [] (Some (0 ∷ []))) (others ∷ []) ≡ true }
    ensures above { all_fits 12931 (select_of (Column 0 ∷ CountAll ∷ Min 1 ∷ []) [] (Some (0 ∷ []))) (others ∷ []) ≡ false }
{}

/// So do the rows of the result, of 48, 48 and 20 bytes, which are asked for before LIMIT, but not where a sum is out
/// of range.
pub fn results_that_fit()
    ensures fits { all_fits 464 (select_of (replicate 4 (Column 0)) [] None) (few ∷ []) ≡ true }
    ensures above { all_fits 463 (ordered_by 0 false (Some 1) (select_of (replicate 4 (Column 0)) [] None)) (few ∷ []) ≡ false }
    ensures groups { all_fits 512 (select_of (Count 1 ∷ replicate 9 (Column 0)) [] (Some (0 ∷ []))) (great ∷ []) ≡ false }
    ensures no_rows { all_fits 512 (select_of (Sum 1 ∷ replicate 9 (Column 0)) [] (Some (0 ∷ []))) (great ∷ []) ≡ true }
{}
