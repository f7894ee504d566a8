//! Picture parameter sets as bytes.

ghost use Rattle.std.specs.Prelude.{◌≡◌, IfOk, OnOk};
ghost use Rattle.param_sets.specs.Accepted.{IsAcceptedPps};
ghost use Rattle.param_sets.specs.Pps.{IsPpsOf, IsWrittenPps};
ghost use Rattle.param_sets.specs.Parts.{references, references_of, residuals, residuals_of};
ghost use Rattle.element_tables.specs.Syntax.{Appends};

use super::pps::Pps;
use bit_io::BitWriter;
use element_tables::put_flag;
use std::alloc::{AllocError, Global};

/// The payload of a NAL unit of type 8 that spells the set.
pub fn write_pps(alloc: Global, pps: &Pps) -> Result<Vec<u8>, AllocError>
    requires { IsAcceptedPps pps.now }
    ensures written { IfOk result (λ v. IsWrittenPps v.items pps.now) }
    ensures reads_back { IfOk result (λ v. IsPpsOf v.items pps.now) }
{
    let mut out = BitWriter::new(alloc);
    put_references(&mut out, pps)?;
    put_residuals(&mut out, pps)?;
    out.finish()?;
    Vec::from_slice(alloc, out.bytes())
}

fn put_references(out: &mut BitWriter, pps: &Pps) -> Result<(), AllocError>
    requires { IsAcceptedPps pps.now }
    ensures { OnOk result (Appends references (references_of pps.now) out.old out.new) }
{
    out.put_ue(pps.pic_parameter_set_id)?;
    out.put_ue(pps.seq_parameter_set_id)?;
    put_flag(out, pps.entropy_coding_mode_flag)?;
    put_flag(out, pps.bottom_field_pic_order_in_frame_present_flag)?;
    out.put_ue(pps.num_slice_groups_minus1)?;
    out.put_ue(pps.num_ref_idx_l0_default_active_minus1)?;
    out.put_ue(pps.num_ref_idx_l1_default_active_minus1)
}

fn put_residuals(out: &mut BitWriter, pps: &Pps) -> Result<(), AllocError>
    requires { IsAcceptedPps pps.now }
    ensures { OnOk result (Appends residuals (residuals_of pps.now) out.old out.new) }
{
    put_flag(out, pps.weighted_pred_flag)?;
    out.put_u(pps.weighted_bipred_idc, 2)?;
    out.put_se(pps.pic_init_qp_minus26)?;
    out.put_se(pps.pic_init_qs_minus26)?;
    out.put_se(pps.chroma_qp_index_offset)?;
    put_flag(out, pps.deblocking_filter_control_present_flag)?;
    put_flag(out, pps.constrained_intra_pred_flag)?;
    put_flag(out, pps.redundant_pic_cnt_present_flag)
}
