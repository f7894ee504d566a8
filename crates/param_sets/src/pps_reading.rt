//! Picture parameter sets from their bytes.

ghost use Rattle.std.specs.Prelude.{◌≡◌, ◌≢◌, ◌↔◌, Err, IfOk, Ok};
ghost use Rattle.param_sets.specs.Accepted.{IsAcceptedPps};
ghost use Rattle.param_sets.specs.Pps.{IsBadPps, IsPpsOf, LeavesBaseline, pic_parameter_set_data};
ghost use Rattle.param_sets.specs.Parts.{references, residuals};
ghost use Rattle.element_tables.specs.Syntax.{Gives};

use super::fault::SetFault;
use super::pps::Pps;
use super::pps_parts::{References, Residuals, assembled};
use bit_io::BitReader;
use element_tables::{
    Stop, read_flag, read_flag_only, read_se, read_se_between, read_u_only, read_ue_only,
    read_ue_up_to,
};

/// The picture parameter set that the payload of a NAL unit of type 8 spells.
pub fn read_pps(rbsp: &[u8]) -> Result<Pps, SetFault>
    ensures found { IfOk result (λ p. IsPpsOf rbsp.now p) }
    ensures only { (p : Pps) → IsPpsOf rbsp.now p → result ≡ Ok p }
    ensures bad { (result ≡ Err SetFault.BadPps) ↔ IsBadPps rbsp.now }
    ensures not_baseline { (result ≡ Err SetFault.NotBaseline) ↔ LeavesBaseline rbsp.now }
    ensures no_bad_sps { result ≢ Err SetFault.BadSps }
    ensures no_size { result ≢ Err SetFault.TooLarge }
    ensures accepted { IfOk result IsAcceptedPps }
{
    let mut reader = BitReader::new(rbsp);
    let pps = match read_picture(&mut reader) {
        Ok(pps) => pps,
        Err(Stop::Malformed) => return Err(SetFault::BadPps),
        Err(Stop::OtherProfile) => return Err(SetFault::NotBaseline),
    };
    if reader.ends_here() {
        Ok(pps)
    } else if reader.more_data() {
        Err(SetFault::NotBaseline)
    } else {
        Err(SetFault::BadPps)
    }
}

fn read_picture(reader: &mut BitReader) -> Result<Pps, Stop>
    ensures { Gives pic_parameter_set_data reader.old result reader.new }
{
    let references = read_references(reader)?;
    let residuals = read_residuals(reader)?;
    Ok(assembled(&references, &residuals))
}

fn read_references(reader: &mut BitReader) -> Result<References, Stop>
    ensures { Gives references reader.old result reader.new }
{
    let pic_parameter_set_id = read_ue_up_to(reader, 255)?;
    let seq_parameter_set_id = read_ue_up_to(reader, 31)?;
    let entropy_coding_mode_flag = read_flag_only(reader, false)?;
    let bottom_field_pic_order_in_frame_present_flag = read_flag(reader)?;
    let num_slice_groups_minus1 = read_ue_only(reader, 0)?;
    let num_ref_idx_l0_default_active_minus1 = read_ue_up_to(reader, 15)?;
    let num_ref_idx_l1_default_active_minus1 = read_ue_up_to(reader, 31)?;
    Ok(References {
        pic_parameter_set_id,
        seq_parameter_set_id,
        entropy_coding_mode_flag,
        bottom_field_pic_order_in_frame_present_flag,
        num_slice_groups_minus1,
        num_ref_idx_l0_default_active_minus1,
        num_ref_idx_l1_default_active_minus1,
    })
}

fn read_residuals(reader: &mut BitReader) -> Result<Residuals, Stop>
    ensures { Gives residuals reader.old result reader.new }
{
    let weighted_pred_flag = read_flag_only(reader, false)?;
    let weighted_bipred_idc = read_u_only(reader, 2, 0)?;
    let pic_init_qp_minus26 = read_se_between(reader, -26, 25)?;
    let pic_init_qs_minus26 = read_se(reader)?;
    let chroma_qp_index_offset = read_se_between(reader, -12, 12)?;
    let deblocking_filter_control_present_flag = read_flag(reader)?;
    let constrained_intra_pred_flag = read_flag(reader)?;
    let redundant_pic_cnt_present_flag = read_flag_only(reader, false)?;
    Ok(Residuals {
        weighted_pred_flag,
        weighted_bipred_idc,
        pic_init_qp_minus26,
        pic_init_qs_minus26,
        chroma_qp_index_offset,
        deblocking_filter_control_present_flag,
        constrained_intra_pred_flag,
        redundant_pic_cnt_present_flag,
    })
}
