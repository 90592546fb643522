//! Worked examples of the words. No function here does anything.

ghost use Rattle.std.specs.Prelude.{◌≡◌, ◌^◌, ◌-◌, ◌<◌, ℕ};
ghost use Rattle.souper_words.specs.declared.outcome.Outcome.TheVariants.{Number, Poison, Undefined};
ghost use Rattle.souper_words.specs.declared.outcome.Outcome.{Outcome};
ghost use Rattle.souper_words.specs.declared.words.Word.{Word};
ghost use Rattle.souper_words.specs.declared.words.Word.TheVariants.{Add, AddNsw, AddNuw, AddNw, Sub, SubNsw, SubNuw, SubNw, Mul, MulNsw, MulNuw, MulNw, Shl, ShlNsw, ShlNuw, ShlNw, Udiv, Sdiv, UdivExact, SdivExact, Urem, Srem, And, Or, Xor, Lshr, LshrExact, Ashr, AshrExact, Zext, Sext, Trunc, Eq, Ne, Ult, Slt, Ule, Sle, Ctpop, Bswap, BitReverse, Cttz, Ctlz, Fshl, Fshr, SaddWithOverflow, UaddWithOverflow, SsubWithOverflow, UsubWithOverflow, SmulWithOverflow, UmulWithOverflow, SaddSat, UaddSat, SsubSat, UsubSat, ExtractValue, Freeze};
ghost use Rattle.souper_words.specs.Words.{outcome, AreWidths};
ghost use Rattle.souper_words.specs.Outcomes.{number_or};
ghost use Rattle.souper_words.specs.Examples.{of_one, of_two, of_three, compared, resized, paired, chosen};

/// The number of an outcome has the bits of the result, if operands have those of operands, and the choice those of the result.
pub fn law_of_bits_of_outcomes()
    ensures { (x : Word) (w v choice : ℕ) (a b c : Outcome) → AreWidths x w v → choice < 2 ^ w → number_or 0 a < 2 ^ v → number_or 0 b < 2 ^ v → number_or 0 c < 2 ^ v → number_or 0 (outcome x w v choice a b c) < 2 ^ w }
{}

/// Sums and differences of 8 bits, where 128 is the least signed number and 255 is -1.
pub fn law_of_sums()
    ensures add { of_two Add 8 255 2 ≡ Number 1 }
    ensures addnsw { of_two AddNsw 8 127 1 ≡ Poison }
    ensures addnsw_of_minus_one { of_two AddNsw 8 255 1 ≡ Number 0 }
    ensures addnsw_of_least { of_two AddNsw 8 128 255 ≡ Poison }
    ensures addnuw { of_two AddNuw 8 255 1 ≡ Poison }
    ensures addnuw_of_greatest { of_two AddNuw 8 127 1 ≡ Number 128 }
    ensures addnw { of_two AddNw 8 127 1 ≡ Poison }
    ensures addnw_unsigned { of_two AddNw 8 255 1 ≡ Poison }
    ensures sub { of_two Sub 8 1 2 ≡ Number 255 }
    ensures subnsw { of_two SubNsw 8 128 1 ≡ Poison }
    ensures subnsw_below { of_two SubNsw 8 1 2 ≡ Number 255 }
    ensures subnuw { of_two SubNuw 8 1 2 ≡ Poison }
    ensures subnw { of_two SubNw 8 128 1 ≡ Poison }
    ensures subnw_unsigned { of_two SubNw 8 1 2 ≡ Poison }
{}

/// Products and left shifts of 8 bits, and the least number of 128 bits by -1.
pub fn law_of_products()
    ensures mul { of_two Mul 8 16 17 ≡ Number 16 }
    ensures mulnsw { of_two MulNsw 8 16 8 ≡ Poison }
    ensures mulnsw_of_minus_one { of_two MulNsw 8 255 255 ≡ Number 1 }
    ensures mulnsw_of_least { of_two MulNsw 8 128 255 ≡ Poison }
    ensures mulnsw_of_least_by_one { of_two MulNsw 8 128 1 ≡ Number 128 }
    ensures mulnsw_of_128_bits { of_two MulNsw 128 (2 ^ 127) (2 ^ 128 - 1) ≡ Poison }
    ensures mulnuw { of_two MulNuw 8 16 16 ≡ Poison }
    ensures mulnuw_within { of_two MulNuw 8 15 17 ≡ Number 255 }
    ensures mulnw { of_two MulNw 8 16 8 ≡ Poison }
    ensures mulnw_unsigned { of_two MulNw 8 255 255 ≡ Poison }
    ensures shl { of_two Shl 8 3 7 ≡ Number 128 }
    ensures shl_by_the_width { of_two Shl 8 1 8 ≡ Poison }
    ensures shlnsw { of_two ShlNsw 8 1 7 ≡ Poison }
    ensures shlnsw_of_minus_one { of_two ShlNsw 8 255 7 ≡ Number 128 }
    ensures shlnuw { of_two ShlNuw 8 2 7 ≡ Poison }
    ensures shlnuw_within { of_two ShlNuw 8 1 7 ≡ Number 128 }
    ensures shlnw { of_two ShlNw 8 1 7 ≡ Poison }
    ensures shlnw_unsigned { of_two ShlNw 8 255 7 ≡ Poison }
{}

/// Quotients and rests of 8 bits, where 249 is -7.
pub fn law_of_quotients()
    ensures udiv { of_two Udiv 8 255 2 ≡ Number 127 }
    ensures udiv_by_zero { of_two Udiv 8 1 0 ≡ Undefined }
    ensures sdiv { of_two Sdiv 8 249 2 ≡ Number 253 }
    ensures sdiv_of_least_by_minus_one { of_two Sdiv 8 128 255 ≡ Undefined }
    ensures sdiv_of_least { of_two Sdiv 8 128 1 ≡ Number 128 }
    ensures sdiv_of_one_bit { of_two Sdiv 1 1 1 ≡ Undefined }
    ensures sdiv_of_128_bits { of_two Sdiv 128 (2 ^ 127) (2 ^ 128 - 1) ≡ Undefined }
    ensures udivexact { of_two UdivExact 8 6 4 ≡ Poison }
    ensures udivexact_within { of_two UdivExact 8 8 4 ≡ Number 2 }
    ensures udivexact_by_zero { of_two UdivExact 8 8 0 ≡ Undefined }
    ensures sdivexact { of_two SdivExact 8 249 2 ≡ Poison }
    ensures sdivexact_within { of_two SdivExact 8 248 4 ≡ Number 254 }
    ensures sdivexact_of_least_by_minus_one { of_two SdivExact 8 128 255 ≡ Undefined }
    ensures urem { of_two Urem 8 249 16 ≡ Number 9 }
    ensures urem_by_zero { of_two Urem 8 1 0 ≡ Undefined }
    ensures srem { of_two Srem 8 249 2 ≡ Number 255 }
    ensures srem_of_least_by_minus_one { of_two Srem 8 128 255 ≡ Undefined }
    ensures by_poison { outcome Udiv 8 8 0 (Number 1) Poison (Number 0) ≡ Undefined }
    ensures of_poison { outcome Udiv 8 8 0 Poison (Number 255) (Number 0) ≡ Poison }
    ensures of_poison_by_zero { outcome Urem 8 8 0 Poison (Number 0) (Number 0) ≡ Undefined }
    ensures of_poison_by_minus_one { outcome Sdiv 8 8 0 Poison (Number 255) (Number 0) ≡ Undefined }
    ensures of_poison_by_two { outcome Srem 8 8 0 Poison (Number 2) (Number 0) ≡ Poison }
{}

/// Bits, right shifts and funnel shifts of 8 bits.
pub fn law_of_bits()
    ensures and { of_two And 8 12 10 ≡ Number 8 }
    ensures or { of_two Or 8 12 10 ≡ Number 14 }
    ensures xor { of_two Xor 8 12 10 ≡ Number 6 }
    ensures lshr { of_two Lshr 8 129 7 ≡ Number 1 }
    ensures lshr_by_the_width { of_two Lshr 8 1 8 ≡ Poison }
    ensures lshrexact { of_two LshrExact 8 129 7 ≡ Poison }
    ensures lshrexact_within { of_two LshrExact 8 128 7 ≡ Number 1 }
    ensures ashr { of_two Ashr 8 129 7 ≡ Number 255 }
    ensures ashr_by_the_width { of_two Ashr 8 1 8 ≡ Poison }
    ensures ashrexact { of_two AshrExact 8 129 1 ≡ Poison }
    ensures ashrexact_within { of_two AshrExact 8 130 1 ≡ Number 193 }
    ensures bswap { of_one Bswap 16 258 ≡ Number 513 }
    ensures bitreverse { of_one BitReverse 8 6 ≡ Number 96 }
    ensures fshl { of_three Fshl 8 1 128 1 ≡ Number 3 }
    ensures fshl_by_the_width { of_three Fshl 8 1 128 8 ≡ Number 1 }
    ensures fshl_by_more { of_three Fshl 8 1 128 9 ≡ Number 3 }
    ensures fshr { of_three Fshr 8 1 128 1 ≡ Number 192 }
    ensures fshr_by_the_width { of_three Fshr 8 1 128 8 ≡ Number 128 }
{}

/// How many bits are 1, or 0 at an end: all of them in 0.
pub fn law_of_counts()
    ensures ctpop { of_one Ctpop 8 255 ≡ Number 8 }
    ensures cttz { of_one Cttz 8 12 ≡ Number 2 }
    ensures cttz_of_zero { of_one Cttz 8 0 ≡ Number 8 }
    ensures ctlz { of_one Ctlz 8 12 ≡ Number 4 }
    ensures ctlz_of_zero { of_one Ctlz 8 0 ≡ Number 8 }
{}

/// Comparisons of 8 bits, where 128 is the least signed number; other widths of a number.
pub fn law_of_comparisons()
    ensures eq { compared Eq 8 5 5 ≡ Number 1 }
    ensures ne { compared Ne 8 5 5 ≡ Number 0 }
    ensures ult { compared Ult 8 127 128 ≡ Number 1 }
    ensures ult_of_equal { compared Ult 8 5 5 ≡ Number 0 }
    ensures slt { compared Slt 8 127 128 ≡ Number 0 }
    ensures slt_of_least { compared Slt 8 128 127 ≡ Number 1 }
    ensures ule { compared Ule 8 5 5 ≡ Number 1 }
    ensures ule_of_more { compared Ule 8 128 127 ≡ Number 0 }
    ensures sle { compared Sle 8 255 255 ≡ Number 1 }
    ensures sle_of_more { compared Sle 8 0 255 ≡ Number 0 }
    ensures zext { resized Zext 16 8 128 ≡ Number 128 }
    ensures sext { resized Sext 16 8 128 ≡ Number 65408 }
    ensures trunc { resized Trunc 8 16 511 ≡ Number 255 }
{}

/// Pairs of 8 bits and an overflow, which counts 256; sums and differences that saturate.
pub fn law_of_overflows()
    ensures sadd { paired SaddWithOverflow 8 127 1 ≡ Number 384 }
    ensures sadd_within { paired SaddWithOverflow 8 255 255 ≡ Number 254 }
    ensures uadd { paired UaddWithOverflow 8 255 1 ≡ Number 256 }
    ensures ssub { paired SsubWithOverflow 8 128 1 ≡ Number 383 }
    ensures usub { paired UsubWithOverflow 8 1 2 ≡ Number 511 }
    ensures smul { paired SmulWithOverflow 8 16 8 ≡ Number 384 }
    ensures smul_of_least { paired SmulWithOverflow 8 128 255 ≡ Number 384 }
    ensures umul { paired UmulWithOverflow 8 16 16 ≡ Number 256 }
    ensures value { outcome ExtractValue 8 9 0 (Number 384) (Number 0) (Number 0) ≡ Number 128 }
    ensures overflow { outcome ExtractValue 1 9 0 (Number 384) (Number 1) (Number 0) ≡ Number 1 }
    ensures saddsat { of_two SaddSat 8 127 1 ≡ Number 127 }
    ensures saddsat_below { of_two SaddSat 8 128 255 ≡ Number 128 }
    ensures uaddsat { of_two UaddSat 8 255 1 ≡ Number 255 }
    ensures ssubsat { of_two SsubSat 8 128 1 ≡ Number 128 }
    ensures ssubsat_above { of_two SsubSat 8 127 255 ≡ Number 127 }
    ensures usubsat { of_two UsubSat 8 1 2 ≡ Number 0 }
    ensures usubsat_within { of_two UsubSat 8 2 1 ≡ Number 1 }
{}

/// Poison and undefined behaviour: a select passes over a poison arm, not over an undefined one.
pub fn law_of_poison()
    ensures operand { outcome And 8 8 0 (Number 0) Poison (Number 0) ≡ Poison }
    ensures undefined { outcome And 8 8 0 Poison Undefined (Number 0) ≡ Undefined }
    ensures arm { chosen (Number 1) (Number 5) Poison ≡ Number 5 }
    ensures other_arm { chosen (Number 0) (Number 5) Poison ≡ Poison }
    ensures condition { chosen Poison (Number 5) (Number 5) ≡ Poison }
    ensures undefined_arm { chosen (Number 1) (Number 5) Undefined ≡ Undefined }
    ensures freeze { outcome Freeze 8 8 7 Poison (Number 0) (Number 0) ≡ Number 7 }
    ensures freeze_of_number { outcome Freeze 8 8 7 (Number 5) (Number 0) (Number 0) ≡ Number 5 }
{}
